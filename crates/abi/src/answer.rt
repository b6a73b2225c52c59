// Answers as C programs get them.
ghost use Rattle.std.specs.Prelude.{◌≡◌};
ghost use Rattle.abi.specs.Answer.{answer_of, bad_buffer};

use sound_calls::Answer;

// What a call answers: 0 or the number of its refusal, and what it carries, zeros where it carries less. (Numbers: the C interface.)
#[repr(C)]
#[derive(Clone, Copy, Debug, PartialEq, Eq)]
pub struct Exported {
    pub number: u64,
    pub value: u64,
    pub second: u64,
}

// A buffer of the wrong length: no refusal of the rules, which know no buffers for records. This and `NO` are numbers of our own, out of the way of
// the customer's, which go up to 23 and may go on.
pub const BAD_BUFFER: u64 = 0x4000_0000;

pub fn bad_buffer() -> Exported
    ensures { result ≡ bad_buffer }
{
    Exported {
        number: BAD_BUFFER,
        value: 0,
        second: 0,
    }
}

impl From<Answer> for Exported {
    ghost from_gives = { λ answer exported. exported ≡ answer_of answer };

    fn from(answer: Answer) -> Exported {
        Exported {
            number: answer.number,
            value: answer.value.unwrap_or(0),
            second: answer.second.unwrap_or(0),
        }
    }
}
