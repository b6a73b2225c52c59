// The lines of the input, answered.
use crate::input::Input;
use crate::terminal::{Line, Terminal};
use shell::OpenShell;
use std::fmt;
use std::io::Read;
use std::ops::ControlFlow;
use text::out::Out;

#[derive(Drop)]
pub struct Session<'a, R> {
    pub terminal: &'a Terminal<'a, R>,
    pub shell: OpenShell<'a>,
    pub out: Out<'a, R>,
}

impl<R: Print + Eprint> Session<'_, R> {
    // Answers until the input ends, by itself or by `quit`, or an answer cannot be written. Nothing says that the input ends, so the turns are
    // as many as no run uses up.
    pub fn serve(&mut self, input: &mut Input<'_, impl Read>) -> fmt::Result {
        for _ in 0..u64::MAX {
            if self.turn(input)?.is_break() {
                break;
            }
        }
        Ok(())
    }

    // Reads a block and writes the answers to its lines, and to the line that no newline ends, if the input has ended.
    fn turn(&mut self, input: &mut Input<'_, impl Read>) -> Result<ControlFlow<()>, fmt::Error> {
        let terminal = self.terminal;
        if input.unfinished().is_empty() {
            terminal.tell("> ");
        }
        let end = if input.read() {
            let end = self.hear(input.whole_lines())?;
            input.keep_unfinished();
            end
        } else {
            terminal.tell("\n");
            self.hear(input.unfinished())?;
            ControlFlow::Break(())
        };
        self.out.flush()?;
        Ok(end)
    }

    // Answers lines up to `quit`.
    fn hear(&mut self, lines: &[u8]) -> Result<ControlFlow<()>, fmt::Error> {
        let terminal = self.terminal;
        for line in lines.split_inclusive(|b| *b == b'\n') {
            let line = line.strip_suffix(b"\n").unwrap_or(line);
            match terminal.kind(line) {
                Line::Request => self.shell.answer(line, &mut self.out)?,
                Line::Silent => {}
                Line::Quit => return Ok(ControlFlow::Break(())),
            }
        }
        Ok(ControlFlow::Continue(()))
    }
}
