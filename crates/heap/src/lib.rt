// The public heap: every call (docs/RULES.md) on any record and any words, refused by number where it must be. Nothing is demanded of a caller.
// For monitors that link it and tools that run it. Below it stand the audit, set-up, and the calls on a sound state.
#![tactic(auto)]

pub mod reads;
pub mod requests;
pub mod start;
pub mod word;

// Both count arrays of a sound region. (Arrays by order, as the record has them, by document 01.)
#[derive(Clone, Copy, Debug, PartialEq, Eq)]
pub struct Report {
    pub total_pages: [usize; 6],
    pub free_pages: [usize; 6],
}
