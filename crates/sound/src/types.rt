// What `judge` hands on. The type stands apart from it, so that the definition by which it promises
// can name it.

// The slots in use and the rooms that are taken, of a table that is sound.
#[derive(Clone, Copy, Debug, PartialEq, Eq)]
pub struct InUse {
    pub used: u64,
    pub rooms: u64,
}
