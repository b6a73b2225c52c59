// The 64-bit FNV-1a hash of words, each as eight bytes, the low one first.
ghost use Rattle.std.specs.Prelude.{◌≡◌};
ghost use Rattle.answers.specs.Hash.{with_byte, with_word, hash_of};

const BASIS: u64 = 0xcbf2_9ce4_8422_2325;

const PRIME: u64 = 0x100_0000_01b3;

#[tactic(auto, unfolding(crate::specs::Hash::hash_of))]
pub fn fnv(words: &[u64]) -> u64
    ensures { result ≡ hash_of words.now }
{
    words
        .iter()
        .fold(BASIS, |hash, word| with_word(hash, *word))
}

#[tactic(auto, unfolding(crate::specs::Hash::with_word))]
fn with_word(hash: u64, word: u64) -> u64
    ensures { result ≡ with_word hash word }
{
    word.to_le_bytes()
        .iter()
        .fold(hash, |hash, byte| with_byte(hash, *byte))
}

#[tactic(auto, unfolding(crate::specs::Hash::with_byte))]
fn with_byte(hash: u64, byte: u8) -> u64
    ensures { result ≡ with_byte hash byte }
{
    (hash ^ u64::from(byte)).wrapping_mul(PRIME)
}
