// The answers of the shell, as text: what the heap's calls answer in a line, and the texts of several numbers or lines.
// For the crate `shell`. Below it stand `text`, which writes it, and the calls of `heap`.
#![tactic(auto)]

mod hash;
mod help;
pub mod lines;
pub mod texts;
