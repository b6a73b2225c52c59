// Text for standard output, and the lines that the shell answers.
// For the programs that print what the heap says. Below it stands only std.
#![tactic(auto)]

pub mod answer;
pub mod memory;
pub mod out;
