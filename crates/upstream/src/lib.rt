// No code: what upstream proves of its words and its ghost state, said of our heap: packing, blocks that do not overlap, counts that fit and add
// up, lists. For docs/CONTRACTS.md, which cites each law by name beside the clause that it meets.
#![tactic(auto)]
