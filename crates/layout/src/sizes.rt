// The sizes of the table as bytes; specs/Layout.antt says what stands where.

pub const TABLE_BYTES: usize = 2056;

// Where the slots start.
pub const SLOTS_START: usize = 8;

pub const SLOT_BYTES: usize = 32;
