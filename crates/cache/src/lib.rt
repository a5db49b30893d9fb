// The write-before cache: the table, and its calls, six and one of two, as methods that take it by
// value and hand the next one back with the answer. Each call refuses what is wrong in the order of document 01
// and asks nothing of its caller.
#![tactic(auto)]

mod ask;
mod complete;
mod complete_write;
mod create;
mod judge;
mod next;
mod open;
pub mod types;
mod write;
