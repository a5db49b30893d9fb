// What the end of a write makes of the slots: the block has landed, and its patches commit.
#![tactic(auto)]

pub mod complete;
