// What is kept between records. The types stand apart from the run, so that the definitions by which it
// promises can name them.
use cache::types::Table;
use lines::types::Line;
use rules::sizes::SLOTS;

// Before the open, after it, and after a cut or a bad record.
#[derive(Clone, Copy, Debug, PartialEq, Eq)]
pub enum Phase {
    Unopened,
    Opened,
    Over,
}

// The place of the next record; for the patch of each slot, how many changes it stands for; and how many
// changes have committed. The counts stand beside the slots, not in them: what a slot is may not change
// (Slot, of which the board keeps the bytes).
#[derive(Clone, Copy, Debug, PartialEq, Eq)]
pub struct Kept {
    pub phase: Phase,
    pub place: u64,
    pub table: Table,
    pub changes: [u64; SLOTS],
    pub committed: u64,
}

// A record's call made: what is kept from then on, and its line.
#[derive(Clone, Copy, Debug, PartialEq, Eq)]
pub struct Made {
    pub kept: Kept,
    pub line: Line,
}

// What a step gives back beside the line's bytes: how many these are (no heap: their buffer is lent), and whether
// the record was bad. That is no flag over the other two: a bad record has its line and leaves something kept as any other.
#[derive(Clone, Copy, Debug, PartialEq, Eq)]
pub struct Stepped {
    pub kept: Kept,
    pub length: usize,
    pub bad: bool,
}
