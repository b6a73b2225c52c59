// A line of the shell's input, taken apart into the request that it makes.
// For the crate `shell`. What a line says stands in specs/Line.antt. Below it stand `words`, for addresses, and `common`.
#![tactic(auto)]

pub mod input;
pub mod request;
