// The shell over the heap: a request is a line, and its answer is text. The record and the lent words stay between lines.
// For the program `heapsh`, which reads lines and lends the buffers. Below it stand `parse`, which takes a line apart, `answers`, which
// makes the text, and the calls of `heap`. What a line leaves stands in specs/Shell.antt; of what is written nothing is promised.
#![tactic(auto)]

ghost use Rattle.std.specs.Prelude.{◌≡◌, ◌++◌, ◌≤◌, min, length, drop, replicate};
ghost use Rattle.heap.specs.Promise.{empty_region};
ghost use Rattle.shell.specs.Shell.{held, settled, answered};

use crate::requests::act;
use crate::steps::Reply;
use answers::texts::write_text;
use heap::start::empty_region;
use parse::input::parse;
use region::HeapMemoryRegion;
use std::fmt::{self, Write};
use text::answer::{Line, Word};

mod record;
mod requests;
mod steps;

// The most words that can be lent.
pub const MOST_WORDS: usize = 8192;

// The word of a Reserved page. (A number: words are lent as u64, and an array that holds it at first is written so in document 01.)
pub const RESERVED: u64 = 15;

// What stays from line to line beside the buffer: the record, and how many of the buffer's first words are lent.
#[derive(Clone, Copy)]
pub struct Shell {
    pub region: HeapMemoryRegion,
    pub lent: usize,
}

impl Shell {
    pub fn new() -> Self
        ensures region { result.region ≡ empty_region }
        ensures lent { result.lent ≡ 0 }
    {
        Shell {
            region: empty_region(),
            lent: 0,
        }
    }
}

// A shell, and the buffer whose first words it lends. (That the buffer has so many is no ghost field: `answered` says what a shell does that lends
// more, so such a one may be built.)
#[derive(Drop)]
pub struct OpenShell<'a> {
    pub shell: Shell,
    pub buffer: &'a mut [u64],
}

impl<'a> OpenShell<'a> {
    pub fn new(buffer: &'a mut [u64]) -> Self
        ensures region { result.shell.region ≡ empty_region }
        ensures lent { result.shell.lent ≡ 0 }
        ensures buffer { result.buffer.now ≡ buffer.old }
        ensures same_buffer { result.buffer.ghost_name ≡ buffer.entry.ghost_name }
    {
        OpenShell {
            shell: Shell::new(),
            buffer,
        }
    }

    // Answers a line. A shell that lends more words than its buffer has answers nothing.
    #[tactic(auto, unfolding(crate::specs::Shell::answered))]
    pub fn answer(&mut self, line: &[u8], out: &mut impl Write) -> fmt::Result
        ensures left { held self.new.shell.region self.new.shell.lent self.new.buffer.now ≡ answered self.old.shell.region self.old.shell.lent self.old.buffer.now line.now }
        ensures same_buffer { self.new.buffer.ghost_name ≡ self.old.buffer.ghost_name }
    {
        if self.buffer.len() < self.shell.lent {
            return Ok(());
        }
        let lent = &mut self.buffer[..self.shell.lent];
        let reply = act(&mut self.shell.region, lent, parse(line));
        self.settle(reply, out)
    }

    // Writes the reply, and lends other words if it says so.
    fn settle(&mut self, reply: Reply, out: &mut impl Write) -> fmt::Result
        requires { self.old.shell.lent ≤ length self.old.buffer.now }
        ensures left { held self.new.shell.region self.new.shell.lent self.new.buffer.now ≡ settled self.old.shell.region self.old.shell.lent self.old.buffer.now reply }
        ensures same_buffer { self.new.buffer.ghost_name ≡ self.old.buffer.ghost_name }
    {
        match reply {
            Reply::Line(line) => writeln!(out, "{line}"),
            Reply::Lent(n) => {
                self.lend(n);
                let ok = Line::new(Word::Ok, &[]);
                writeln!(out, "{ok}")
            }
            Reply::Text(kind) => write_text(out, kind, self.shell.region, self.words()),
        }
    }

    // The words that are lent.
    fn words(&self) -> &[u64]
        requires { self.now.shell.lent ≤ length self.now.buffer.now }
    {
        &self.buffer[..self.shell.lent]
    }

    // Lends `n` words, all Reserved, or as many as the buffer has.
    fn lend(&mut self, n: usize)
        ensures region { self.new.shell.region ≡ self.old.shell.region }
        ensures lent { self.new.shell.lent ≡ min n (length self.old.buffer.now) }
        ensures reserved { self.new.buffer.now ≡ replicate self.new.shell.lent 15 ++ drop self.new.shell.lent self.old.buffer.now }
        ensures same_buffer { self.new.buffer.ghost_name ≡ self.old.buffer.ghost_name }
    {
        self.shell.lent = n.min(self.buffer.len());
        self.buffer[..self.shell.lent].fill(RESERVED);
    }
}
