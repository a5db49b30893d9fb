// The 64 slots as the calls read them: words on one slot, walks over all, the patches of a block,
// whether a number was issued; one slot made from another; and what a setting says.
#![tactic(auto)]

pub mod number;
pub mod patches;
pub mod setting;
pub mod slot;
#[cfg(test)]
mod tests;
pub mod types;
pub mod walks;
pub mod words;
