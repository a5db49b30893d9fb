// What a store may hold when the supply goes: a world of changes, writes and a store, and no table.
// It has no code: the definitions of specs/ and the theorem of proofs/ are the crate, and the step
// records are all that a cache has to show of its calls.
#![tactic(auto)]
