// Whether a table is sound, and which slots are in use and which rooms are taken where it is.
#![tactic(auto)]

pub mod judge;
pub mod types;
