// Records of a trace (document 02, request c): the writer, one function for each call, and the reader.
// Neither knows the table; what a trace's calls do is `trace`.
#![tactic(auto)]

mod bytes;
pub mod reader;
pub mod sizes;
mod tag;
pub mod types;
pub mod writer;
