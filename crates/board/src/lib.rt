// The cache for C and Rust: seven functions over plain numbers and lent bytes, and six that record
// their calls. The table is 2,056 bytes that the caller keeps, also over the radio's sleep;
// the crate `layout` says what they mean. No function asks anything of its caller: bytes that are no
// table are refused by number.
#![tactic(auto)]

pub mod calls;
pub mod recording;
