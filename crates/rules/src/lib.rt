// The types that document 01 names by place, and next to nothing that runs: its rules are the definitions
// of specs/, which every promise above cites. The table itself stands with its methods, in `cache`.
#![tactic(auto)]

pub mod refusals;
pub mod sizes;

use refusals::Refusal;

// The setting that a table runs under, from its opening on: the board's; and, for finding out what undo
// costs, two that do not join and have more rooms, one with every patch soft, one by the hard rule.
#[derive(Clone, Copy, Debug, PartialEq, Eq)]
pub enum Setting {
    Board,
    AllSoft,
    HardRule,
}

// A waiting patch is hard, or soft with its undo room.
#[derive(Clone, Copy, Debug, PartialEq, Eq)]
pub enum Hold {
    Hard,
    Soft(u32),
}

// A patch in flight is still hard or soft, and has no room.
#[derive(Clone, Copy, Debug, PartialEq, Eq)]
pub enum Kind {
    Hard,
    Soft,
}

#[derive(Clone, Copy, Debug, Default, PartialEq, Eq)]
pub enum State {
    #[default]
    Free,
    Waiting(Hold),
    InFlight(Kind),
}

// Every field is wide enough that what is not sound can be passed, and judged. The default is a free slot.
#[derive(Clone, Copy, Debug, Default, PartialEq, Eq)]
pub struct Slot {
    pub state: State,
    pub number: u32,
    pub block: u32,
    pub offset: u32,
    pub len: u32,
    pub befores: u64,
}

// A change as it is lent to a call: its block, where in it, the data, and the numbers named before it.
#[derive(Clone, Copy, Debug)]
pub struct Change<'a> {
    pub block: u32,
    pub offset: u32,
    pub bytes: &'a [u8],
    pub named: &'a [u32],
}

// What a granted create says: the number of the patch that the change became or joined, and hard or soft.
#[derive(Clone, Copy, Debug, PartialEq, Eq)]
pub struct Created {
    pub number: u32,
    pub hold: Hold,
}

// What ask answers: one of the three states, or a refusal with its number. It is no Result, since document
// 01 names this form.
#[derive(Clone, Copy, Debug, PartialEq, Eq)]
pub enum AskAnswer {
    Waiting,
    InFlight,
    Committed,
    Refused(Refusal),
}
