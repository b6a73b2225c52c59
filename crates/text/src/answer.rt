// An answer of one line: a word, and up to three values.
ghost use Rattle.std.specs.Prelude.{◌≡◌};

use std::fmt;

#[derive(Clone, Copy, PartialEq, Eq, Debug)]
pub enum Word {
    Ok,
    No,
    Bad,
    Out,
    Free,
    Allocated,
    Slab,
    Compound,
    File,
    Reserved,
    Hex(u64),
}

#[derive(Clone, Copy, PartialEq, Eq, Debug)]
pub enum Value {
    Number(u64),
    Hex(u64),
    NoPage,
}

#[derive(Clone, Copy, PartialEq, Eq, Debug)]
pub struct Line {
    pub word: Word,
    pub values: [Option<Value>; 3],
}

impl Line {
    ghost use Rattle.text.specs.Line.{line};

    // A fourth value is ignored.
    pub fn new(word: Word, values: &[Value]) -> Line
        ensures { result ≡ line word values.now }
    {
        Line {
            word,
            values: [
                values.first().copied(),
                values.get(1).copied(),
                values.get(2).copied(),
            ],
        }
    }
}

impl fmt::Display for Word {
    fn fmt<W: fmt::Write>(&self, f: &mut fmt::Formatter<W>) -> fmt::Result {
        match *self {
            Word::Ok => f.write_str("ok"),
            Word::No => f.write_str("no"),
            Word::Bad => f.write_str("bad"),
            Word::Out => f.write_str("out"),
            Word::Free => f.write_str("free"),
            Word::Allocated => f.write_str("allocated"),
            Word::Slab => f.write_str("slab"),
            Word::Compound => f.write_str("compound"),
            Word::File => f.write_str("file"),
            Word::Reserved => f.write_str("reserved"),
            Word::Hex(w) => fmt::LowerHex::fmt(&w, f),
        }
    }
}

impl fmt::Display for Value {
    fn fmt<W: fmt::Write>(&self, f: &mut fmt::Formatter<W>) -> fmt::Result {
        match *self {
            Value::Number(n) => fmt::Display::fmt(&n, f),
            Value::Hex(w) => fmt::LowerHex::fmt(&w, f),
            Value::NoPage => f.write_str("-"),
        }
    }
}

// The word, and each value after a blank.
impl fmt::Display for Line {
    fn fmt<W: fmt::Write>(&self, f: &mut fmt::Formatter<W>) -> fmt::Result {
        fmt::Display::fmt(&self.word, f)?;
        for value in self.values.iter().flatten() {
            f.write_str(" ")?;
            fmt::Display::fmt(value, f)?;
        }
        Ok(())
    }
}
