// What a creation asks of the slots, and makes of them: whether it joins a patch, is hard or is soft and
// in which room; then the slots with the change in them. Which patches it must follow is asked of
// `befores`.
#![tactic(auto)]

pub mod accepted;
pub mod entry;
pub mod types;
