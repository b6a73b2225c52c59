// No code: general laws that the kit's library lacks, on tests, lists of numbers, functions changed at one place, and counts.
// For the specs and proofs of every other crate. It knows nothing of heaps, and stands on the kit alone.
#![tactic(auto)]
