// No code: the mathematics of the heap, that is blocks, lists, steps, rules and histories, with no word, no address and no page limit in it,
// and the theorems about them. For the specs and proofs above it, and for auditors. It stands on `common`.
#![tactic(auto)]
