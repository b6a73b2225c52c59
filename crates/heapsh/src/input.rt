// The input, block after block. A line may begin in one block and end in another.
ghost use Rattle.std.specs.Prelude.{◌≤◌, length};

use parse::input::LONGEST;
use std::io::Read;

// What was read stands at the front of a buffer that the caller lends: the lines that have ended, and one that no newline has ended yet.
#[derive(Drop)]
pub struct Input<'a, R> {
    reader: &'a mut R,
    buffer: &'a mut [u8],
    filled: usize,
    // Where that line begins.
    start: usize,
    ghost fits: { (start ≤ filled) × (filled ≤ length buffer.now) },
}

impl<'a, R: Read> Input<'a, R> {
    pub fn new(reader: &'a mut R, buffer: &'a mut [u8]) -> Self {
        Input {
            reader,
            buffer,
            filled: 0,
            start: 0,
        }
    }

    // Reads on, and says whether more came: none where the input has ended, or a read fails.
    pub fn read(&mut self) -> bool {
        let room = &mut self.buffer[self.filled..];
        let count = self.reader.read(room).unwrap_or(0);
        // A scan for the last newline goes byte by byte, and `contains` by many at once: it spares a block of one long line that scan.
        let read = &room[..count];
        if read.contains(&b'\n')
            && let Some(end) = read.iter().rposition(|b| *b == b'\n')
        {
            self.start = self.filled + end + 1;
        }
        self.filled += count;
        count != 0
    }

    // The lines that have ended.
    pub fn whole_lines(&self) -> &[u8] {
        &self.buffer[..self.start]
    }

    // The line that no newline has ended yet.
    pub fn unfinished(&self) -> &[u8] {
        &self.buffer[self.start..self.filled]
    }

    // Moves that line to the front of the buffer. A line longer than LONGEST is cut to LONGEST bytes and one: it is still too long, so it will be
    // answered `bad`, and the buffer has room for more input.
    pub fn keep_unfinished(&mut self) {
        let kept = (self.filled - self.start).min(LONGEST + 1);
        self.buffer.copy_within(self.start..self.start + kept, 0);
        self.start = 0;
        self.filled = kept;
    }
}
