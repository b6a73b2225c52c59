// No code: histories of the public heap, and what holds at every moment after any calls, by the calls' promises alone (the customer's demand 3).
// For auditors, and for whoever builds on the heap. It stands on the promises of `heap` and the theorems of `buddy`.
#![tactic(auto)]
