// What is promised to the insurer, over the very definitions that the calls are proved to follow.
// It has no code: specs/ has the statements, and proofs/ shows them.
#![tactic(auto)]
