// The table as 2,056 bytes: whether bytes are a table, which one they mean, and a table written over
// them. specs/Layout.antt says what stands where.
#![tactic(auto)]

mod bytes;
pub mod from_bytes;
pub mod sizes;
pub mod to_bytes;
