// The table, and what its calls return. The types stand apart from the calls, so that the definitions
// by which these promise can name them.
use rules::refusals::Refusal;
use rules::sizes::SLOTS;
use rules::{Setting, Slot};

// The setting that it was opened with, first and next number, and 64 slots. It sits in memory that
// survives the radio's sleep, so every call takes it as input like the rest.
#[derive(Clone, Copy, Debug, PartialEq, Eq)]
pub struct Table {
    pub setting: Setting,
    pub first: u32,
    pub next: u32,
    pub slots: [Slot; SLOTS],
}

// What a call hands back: the next table, and its answer.
#[derive(Clone, Copy, Debug, PartialEq, Eq)]
pub struct Answered<T> {
    pub table: Table,
    pub answer: Result<T, Refusal>,
}

// What the joint call hands back; the second answer is none where completing was refused, and so no write
// was tried.
#[derive(Clone, Copy, Debug, PartialEq, Eq)]
pub struct CompletedWritten {
    pub table: Table,
    pub first: Result<(), Refusal>,
    pub second: Option<Result<u64, Refusal>>,
}
