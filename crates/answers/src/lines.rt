// What the calls of the heap answer, as lines. (Functions and no From: Line is of `text`, and the answers are of the heap's crates.)
ghost use Rattle.std.specs.Prelude.{◌≡◌, [], ◌∷◌};
ghost use Rattle.text.specs.Line.{line};
ghost use Rattle.text.specs.declared.answer.Word.{Word};
ghost use Rattle.text.specs.declared.answer.Value.{Value};
ghost use Rattle.answers.specs.Lines.{line_of, page_value, page_line, decoded_line, encoded_line};

use sound_calls::Answer;
use text::answer::{Line, Value, Word};
use words::word::{NO_PAGE, PageInfo, PageStorageType};

pub fn bad() -> Line
    ensures { result ≡ line Word.Bad [] }
{
    Line::new(Word::Bad, &[])
}

// `ok` and a number.
pub fn number(n: u64) -> Line
    ensures { result ≡ line Word.Ok (Value.Number n ∷ []) }
{
    Line::new(Word::Ok, &[Value::Number(n)])
}

// An answer of the heap: `ok` and what it carries, or `no`, the refusal's number and what it carries.
#[tactic(auto, unfolding(crate::specs::Lines::line_of))]
pub fn of_answer(answer: Answer) -> Line
    ensures { result ≡ line_of answer }
{
    let value = answer.value.map(Value::Number);
    let second = answer.second.map(Value::Number);
    if answer.number == 0 {
        Line {
            word: Word::Ok,
            values: [value, second, None],
        }
    } else {
        Line {
            word: Word::No,
            values: [Some(Value::Number(answer.number)), value, second],
        }
    }
}

pub fn of_encoded(encoded: Option<PageStorageType>) -> Line
    ensures { result ≡ encoded_line encoded }
{
    match encoded {
        Some(w) => Line::new(Word::Ok, &[Value::Hex(w.0)]),
        None => Line::new(Word::No, &[]),
    }
}

pub fn of_decoded(decoded: Option<PageInfo>) -> Line
    ensures { result ≡ decoded_line decoded }
{
    match decoded {
        Some(info) => page(info),
        None => Line::new(Word::No, &[]),
    }
}

fn page(info: PageInfo) -> Line
    ensures { result ≡ page_line info }
{
    match info {
        PageInfo::Free(i) => Line::new(
            Word::Free,
            &[Value::Number(i.order as u64), page_number(i.next_page)],
        ),
        PageInfo::Allocated(i) => Line::new(Word::Allocated, &[Value::Number(i.order as u64)]),
        PageInfo::Slab(i) => Line::new(Word::Slab, &[Value::Number(i.item_size)]),
        PageInfo::Compound(i) => Line::new(Word::Compound, &[Value::Number(i.order as u64)]),
        PageInfo::File(i) => Line::new(Word::File, &[Value::Number(i.ref_count)]),
        PageInfo::Reserved(_) => Line::new(Word::Reserved, &[]),
    }
}

// A page number, or none.
pub fn page_number(page: usize) -> Value
    ensures { result ≡ page_value page }
{
    if page == NO_PAGE {
        Value::NoPage
    } else {
        Value::Number(page as u64)
    }
}
