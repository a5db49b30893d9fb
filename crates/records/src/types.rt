// What the reader answers. The types stand apart, so that the definitions can name them.

// A create as its record begins: how many numbers follow, and how many bytes of data after them.
#[derive(Clone, Copy, Debug, PartialEq, Eq)]
pub struct Head {
    pub block: u32,
    pub offset: u32,
    pub names: usize,
    pub bytes: usize,
}

// A record that is all there.
#[derive(Clone, Copy, Debug, PartialEq, Eq)]
pub enum Found {
    Open(u32),
    Create(Head),
    Write(u32),
    Complete(u32),
    Cut(u64),
}

// What lent bytes begin with: a record; none yet, and how many bytes are still to come before more can
// be said; or what no record begins with (16). Three cases, and so neither an Option nor a Result.
#[derive(Clone, Copy, Debug, PartialEq, Eq)]
pub enum Next {
    Record(Found),
    NoneYet(usize),
    Bad,
}
