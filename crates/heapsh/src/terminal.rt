// What a person at a terminal has beside the answers: a greeting, a prompt, lines that are passed over, and `quit`. A script has none of it.
// What is not an answer goes to standard error.
use parse::input::{LONGEST, next_word, only_word};
use std::io::IsTerminal;

#[derive(Clone, Copy)]
pub enum Line {
    Request,
    Silent,
    Quit,
}

// Where the input comes from: a terminal, or a script.
#[derive(Drop)]
pub struct Terminal<'a, R> {
    // What speaks to the terminal. A script has none.
    rt: Option<&'a R>,
}

impl<'a, R: Eprint> Terminal<'a, R> {
    pub fn new(rt: &'a R, input: &impl IsTerminal) -> Self {
        Terminal {
            rt: input.is_terminal().then_some(rt),
        }
    }

    // Writes what a script has not.
    pub fn tell(&self, text: &str) {
        if let Some(rt) = self.rt {
            let _ = rt.eprint(text);
        }
    }

    // What a line is.
    pub fn kind(&self, line: &[u8]) -> Line {
        match self.rt {
            Some(_) if is_silent(line) => Line::Silent,
            Some(_) if is_quit(line) => Line::Quit,
            _ => Line::Request,
        }
    }
}

// Whether a line is white space alone, or a comment.
fn is_silent(line: &[u8]) -> bool {
    match next_word(line) {
        None => true,
        Some((word, _)) => word.starts_with(b"#"),
    }
}

fn is_quit(line: &[u8]) -> bool {
    line.len() <= LONGEST && matches!(only_word(line), Some(b"quit"))
}
