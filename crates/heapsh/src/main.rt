// heapsh: the heap at a shell. It reads requests from standard input, one to a line, and answers each on standard output (README.md, "The
// shell"); `help` lists the requests. It ends with status 1 where answers were lost. Above `shell`, which answers a line; here are the
// input's blocks, and what a terminal has beside the answers.
#![tactic(auto)]

mod input;
mod session;
mod terminal;

use crate::input::Input;
use crate::session::Session;
use crate::terminal::Terminal;
use shell::{MOST_WORDS, OpenShell, RESERVED};
use std::process::ExitCode;
use text::out::Out;

// Buffers for a loop that would spend its time on calls that move less.
const BLOCK: usize = 65536;

fn main(rt: HostRuntime) -> ExitCode {
    let mut reader = rt.stdin();
    let terminal = Terminal::new(&rt, &reader);
    terminal.tell(
        "heapsh 0.3.0: a page heap, one request to a line; help lists the requests, quit ends\n",
    );
    let mut words = [RESERVED; MOST_WORDS];
    let mut read = [0u8; BLOCK];
    let mut written = [0u8; BLOCK];
    let mut session = Session {
        terminal: &terminal,
        shell: OpenShell::new(&mut words),
        out: Out::new(&rt, &mut written),
    };
    match session.serve(&mut Input::new(&mut reader, &mut read)) {
        Ok(()) => ExitCode::SUCCESS,
        Err(_) => ExitCode::FAILURE,
    }
}
