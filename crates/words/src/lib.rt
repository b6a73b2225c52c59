// Page words, page numbers and addresses, and the order of a size (W1 to W11).
// For every crate above that reads or writes a page's word. Below it stands only `common`.
#![tactic(auto)]

pub mod order;
pub mod place;
pub mod raw;
pub mod word;
