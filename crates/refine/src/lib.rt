// No code: the law between record and words on one side and the mathematics on the other. They are sound exactly when a sound heap is shown,
// that heap is unique, and each step on record and words is the step on the heap. For the public promises and histories.
#![tactic(auto)]
