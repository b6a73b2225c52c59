// Page words and the order of a size, for callers of the heap. (Each hands on: they are the heap's public calls by docs/PROMISES.md, and raw
// fields come as three numbers from C and the shell.)
ghost use Rattle.std.specs.Prelude.{◌≡◌};
ghost use Rattle.words.specs.Word.{decode_of, encode_of};
ghost use Rattle.words.specs.Order.{order_of};
ghost use Rattle.words.specs.RawFields.{encode_fields};

use words::word::{PageInfo, PageStorageType};

// What a page's word says.
pub fn decode(word: u64) -> Option<PageInfo>
    ensures { result ≡ decode_of word }
{
    PageStorageType::decode(PageStorageType(word))
}

// The word of raw fields.
pub fn encode(info: PageInfo) -> Option<PageStorageType>
    ensures { result ≡ encode_of info }
{
    PageStorageType::encode(info)
}

// The word of raw fields as numbers, by the type's number. A field that the type does not have must be 0.
pub fn encode_fields(kind: u64, field: u64, next: u64) -> Option<PageStorageType>
    ensures { result ≡ encode_fields kind field next }
{
    words::raw::encode_fields(kind, field, next)
}

// The least order whose block holds a size in bytes.
pub fn get_order(size: usize) -> usize
    ensures { result ≡ order_of size }
{
    words::order::get_order(size)
}
