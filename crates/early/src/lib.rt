// What create and write refuse before the slots are asked: the lent buffers, the numbers and the
// verdict on the table are judged, in the order of document 01. No table is needed for it.
#![tactic(auto)]

pub mod create;
mod named;
pub mod write;
