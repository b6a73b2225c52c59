// A line of the input, taken apart word by word.
ghost use Rattle.std.specs.Prelude.{◌≡◌, ◌≤◌, ◌∷◌, [], length, MatchOption, option_copied};
ghost use Rattle.std.specs.Bool.{beq};
ghost use Rattle.std.specs.List.{prefix_len};
ghost use Rattle.parse.specs.declared.request.Request.{Request};
ghost use Rattle.parse.specs.Line.{blank, words_of, single, digit_of, hex, number, number_of, one, two, three, ends, numbers_to, setup_of, pokes, writes, field_of, asked, parsed};

use crate::request::{Field, Request};
use std::str;
use words::place::VirtAddr;

// The longest line, without its newline.
pub const LONGEST: usize = 200;

// What a line asks for, if it is a request.
#[tactic(auto, unfolding(crate::specs::Line::parsed, crate::specs::Line::asked))]
pub fn parse(line: &[u8]) -> Option<Request>
    ensures { result ≡ parsed line.now }
{
    if LONGEST < line.len() {
        return None;
    }
    let (name, rest) = next_word(line)?;
    request(name, rest)
}

// The first word of a text, and what stands after it.
pub fn next_word(text: &[u8]) -> Option<(&[u8], &[u8])>
    ensures { MatchOption result (words_of text.now ≡ []) (λ p. words_of text.now ≡ p.0.now ∷ words_of p.1.now) }
{
    let text = &text[run(text, true)..];
    if text.is_empty() {
        return None;
    }
    Some(text.split_at(run(text, false)))
}

// The word of a text that has no other.
pub fn only_word(text: &[u8]) -> Option<&[u8]>
    ensures { option_copied result ≡ single (words_of text.now) }
{
    let (word, rest) = next_word(text)?;
    if next_word(rest).is_none() {
        Some(word)
    } else {
        None
    }
}

// How many bytes at the start are white space, or how many are not. (One function for both, told by a bool, with a clause of its own: written out in
// `next_word`, what the two chains count stays open there.)
fn run(text: &[u8], blanks: bool) -> usize
    ensures within { result ≤ length text.now }
    ensures count { result ≡ prefix_len (λ b. beq (blank b) blanks) text.now }
{
    text.iter().take_while(|b| is_blank(**b) == blanks).count()
}

// Space, tab, vertical tab, form feed, carriage return; a newline is in no line.
fn is_blank(b: u8) -> bool
    ensures { result ≡ blank b }
{
    match b {
        b' ' | 9..=13 => true,
        _ => false,
    }
}

// The request of a name and the words after it. (Matched as text; by length first, so that few names are compared. Tried: on bytes three names alone
// leave 15 goals open.)
#[tactic(auto, unfolding(crate::specs::Line::asked), using(crate::proofs::Names::not_request))]
fn request(name: &[u8], rest: &[u8]) -> Option<Request>
    ensures { result ≡ asked (name.now ∷ words_of rest.now) }
{
    let name = str::from_utf8(name).ok()?;
    match name.len() {
        3 => match name {
            "get" => Some(Request::Get(VirtAddr(one(rest)?))),
            "put" => Some(Request::Put(VirtAddr(one(rest)?))),
            _ => None,
        },
        4 => match name {
            "file" => alone(rest, Request::File),
            "slab" => Some(Request::Slab(one(rest)?)),
            "free" => Some(Request::Free(VirtAddr(one(rest)?))),
            "word" => Some(Request::Word(one(rest)? as usize)),
            "poke" => poke(rest),
            "help" => alone(rest, Request::Help),
            _ => None,
        },
        5 => match name {
            "words" => Some(Request::Words(one(rest)? as usize)),
            "setup" => setup(rest),
            "alloc" => Some(Request::Alloc(one(rest)? as usize)),
            "audit" => alone(rest, Request::Audit),
            "print" => alone(rest, Request::Print),
            "lists" => alone(rest, Request::Lists),
            "state" => alone(rest, Request::State),
            "field" => field(rest),
            "order" => Some(Request::Order(one(rest)? as usize)),
            _ => None,
        },
        6 => match name {
            "lookup" => Some(Request::Lookup(VirtAddr(one(rest)?))),
            "report" => alone(rest, Request::Report),
            "encode" => encode(rest),
            "decode" => Some(Request::Decode(hex(only_word(rest)?)?)),
            _ => None,
        },
        _ => None,
    }
}

// A request with no words after its name.
fn alone(text: &[u8], request: Request) -> Option<Request>
    ensures { result ≡ ends request (words_of text.now) }
{
    if next_word(text).is_none() {
        Some(request)
    } else {
        None
    }
}

fn setup(text: &[u8]) -> Option<Request>
    ensures { result ≡ setup_of (words_of text.now) }
{
    let (start, pages, boot) = three(text)?;
    Some(Request::Setup {
        start: VirtAddr(start),
        pages: pages as usize,
        boot: boot as usize,
    })
}

fn poke(text: &[u8]) -> Option<Request>
    ensures { result ≡ pokes (words_of text.now) }
{
    let (i, rest) = next_word(text)?;
    Some(Request::Poke(decimal(i)? as usize, hex(only_word(rest)?)?))
}

fn field(text: &[u8]) -> Option<Request>
    ensures { result ≡ writes (words_of text.now) }
{
    let (name, rest) = next_word(text)?;
    let field = field_named(name)?;
    let (i, value) = two(rest)?;
    Some(Request::Field(field, i as usize, value))
}

#[tactic(auto, unfolding(crate::specs::Line::field_of), using(crate::proofs::Names::not_field))]
fn field_named(name: &[u8]) -> Option<Field>
    ensures { result ≡ field_of name.now }
{
    match str::from_utf8(name).ok()? {
        "nr" => Some(Field::Nr),
        "free" => Some(Field::Free),
        "head" => Some(Field::Head),
        "start" => Some(Field::Start),
        "pages" => Some(Field::Pages),
        "boot" => Some(Field::Boot),
        _ => None,
    }
}

fn encode(text: &[u8]) -> Option<Request>
    ensures { result ≡ numbers_to Request.Encode (words_of text.now) }
{
    let (kind, field, next) = three(text)?;
    Some(Request::Encode { kind, field, next })
}

// A number, and no word more. (`one`, `two` and `three`, and not one function over a count: these prove with no file, where a loop that fills an
// array wants an invariant, and a pattern names the parts, as in `let (start, pages, boot) = three(text)?`.)
fn one(text: &[u8]) -> Option<u64>
    ensures { result ≡ one (words_of text.now) }
{
    decimal(only_word(text)?)
}

fn two(text: &[u8]) -> Option<(u64, u64)>
    ensures { result ≡ two (words_of text.now) }
{
    let (word, rest) = next_word(text)?;
    Some((decimal(word)?, one(rest)?))
}

fn three(text: &[u8]) -> Option<(u64, u64, u64)>
    ensures { result ≡ three (words_of text.now) }
{
    let (word, rest) = next_word(text)?;
    let x = decimal(word)?;
    let (y, z) = two(rest)?;
    Some((x, y, z))
}

// 1 to 20 decimal digits.
fn decimal(word: &[u8]) -> Option<u64>
    ensures { result ≡ number word.now }
{
    digits(word, 10, 20)
}

// 1 to 16 lower-case hexadecimal digits.
fn hex(word: &[u8]) -> Option<u64>
    ensures { result ≡ hex word.now }
{
    digits(word, 16, 16)
}

// 1 to `longest` digits, if what they say fits.
#[tactic(auto, unfolding(crate::specs::Line::number_of), using(crate::proofs::Numbers::sum_big, crate::proofs::Numbers::product_big))]
fn digits(word: &[u8], base: u64, longest: usize) -> Option<u64>
    requires { 1 ≤ base }
    ensures { result ≡ number_of base longest word.now }
{
    if word.is_empty() || longest < word.len() {
        return None;
    }
    let mut n: u64 = 0;
    for b in word {
        n = n.checked_mul(base)?.checked_add(digit(*b, base)?)?;
    }
    Some(n)
}

fn digit(b: u8, base: u64) -> Option<u64>
    ensures { result ≡ digit_of base b }
{
    let d = match b {
        b'0'..=b'9' => (b - b'0') as u64,
        b'a'..=b'f' => (b - b'a') as u64 + 10,
        _ => return None,
    };
    if d < base { Some(d) } else { None }
}
