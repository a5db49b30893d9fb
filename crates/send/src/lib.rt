// What a write sends: the largest set of a block's waiting patches that may go, and the block handed
// out, with what stays behind taken back; then the slots with the set in flight.
#![tactic(auto)]

pub mod hand_out;
pub mod largest;
pub mod sent;
