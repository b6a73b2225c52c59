// The heap for programs in C and Rust: every public call over numbers, a record of 21 numbers and lent words. Nothing is demanded of a caller
// but what no callee can see: that its buffers are as long as it says and do not overlap. A record of another length is refused with a number
// of our own, `BAD_BUFFER`.
// (One function for each exported name: the C interface. The test of the record's length is one `let` in each. A function for it would take the call
// as a closure, and its contract would have to ask `F.pre` of every reference to the record and say by `F.post` what is left: see `heap::requests`.)
// For `abi_c`, which exports the calls in a static library; bindings/ has the header and the Rust module over it. Below it stands `heap`.
#![tactic(auto)]

pub mod answer;
pub mod reads;
mod record;
pub mod requests;
pub mod word;
