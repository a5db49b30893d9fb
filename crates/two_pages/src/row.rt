// Where a line belongs: the first word of each.
use std::fmt;

// The row of the paper's table, or its opening, its branch, which of the edges, which of the joins,
// which of the examples of old numbers, or one of the joint call.
#[derive(Clone, Copy)]
pub enum Row {
    Start,
    P(u32),
    Branch,
    Range,
    Named,
    Last,
    Slots,
    Full,
    Rooms,
    Befores,
    Overlap,
    Asked,
    Old,
    Sleep,
    Joint,
}

impl fmt::Display for Row {
    fn fmt<W: fmt::Write>(&self, f: &mut fmt::Formatter<W>) -> fmt::Result {
        match self {
            Row::Start => f.write_str("start"),
            Row::P(n) => write!(f, "P{n}"),
            Row::Branch => f.write_str("branch"),
            Row::Range => f.write_str("range"),
            Row::Named => f.write_str("named"),
            Row::Last => f.write_str("last"),
            Row::Slots => f.write_str("slots"),
            Row::Full => f.write_str("full"),
            Row::Rooms => f.write_str("rooms"),
            Row::Befores => f.write_str("befores"),
            Row::Overlap => f.write_str("overlap"),
            Row::Asked => f.write_str("asked"),
            Row::Old => f.write_str("old"),
            Row::Sleep => f.write_str("sleep"),
            Row::Joint => f.write_str("joint"),
        }
    }
}
