// Page words as numbers, and the order of a size.
ghost use Rattle.std.specs.Prelude.{◌≡◌};
ghost use Rattle.words.specs.Word.{decode_of};
ghost use Rattle.words.specs.Order.{order_of};
ghost use Rattle.words.specs.RawFields.{encode_fields};
ghost use Rattle.abi.specs.Word.{said_of, encoded_of};

use crate::answer::Exported;
use heap::word::{decode, encode_fields, get_order};
use words::raw;
use words::word::{PageInfo, PageStorageType};

// No word has these fields, or no fields this word: the plain "no" (W6, W7), under a number of our own (`BAD_BUFFER`).
pub const NO: u64 = 0x4000_0001;

// A page's fields: its type's number; order, item size or count; next page. 0 where the type has no such field. (Numbers: the C interface.)
#[repr(C)]
#[derive(Clone, Copy, Debug, PartialEq, Eq)]
pub struct Fields {
    pub number: u64,
    pub kind: u64,
    pub field: u64,
    pub next: u64,
}

impl From<Option<PageInfo>> for Fields {
    ghost from_gives = { λ said fields. fields ≡ said_of said };

    fn from(said: Option<PageInfo>) -> Fields {
        let Some(info) = said else {
            return Fields {
                number: NO,
                kind: 0,
                field: 0,
                next: 0,
            };
        };
        let raw::Fields { kind, field, next } = raw::Fields::from(info);
        Fields {
            number: 0,
            kind,
            field,
            next,
        }
    }
}

// What a page's word says.
pub fn tingmudra_decode(word: u64) -> Fields
    ensures { result ≡ said_of (decode_of word) }
{
    Fields::from(decode(word))
}

impl From<Option<PageStorageType>> for Exported {
    ghost from_gives = { λ encoded exported. exported ≡ encoded_of encoded };

    fn from(encoded: Option<PageStorageType>) -> Exported {
        match encoded {
            Some(word) => Exported {
                number: 0,
                value: word.0,
                second: 0,
            },
            None => Exported {
                number: NO,
                value: 0,
                second: 0,
            },
        }
    }
}

// The word of raw fields, by the type's number.
pub fn tingmudra_encode(kind: u64, field: u64, next: u64) -> Exported
    ensures { result ≡ encoded_of (encode_fields kind field next) }
{
    Exported::from(encode_fields(kind, field, next))
}

// The least order whose block holds a size in bytes.
pub fn tingmudra_get_order(size: u64) -> u64
    ensures { result ≡ order_of size }
{
    get_order(size as usize) as u64
}
