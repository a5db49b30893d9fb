// The sizes and tags of a record, as the code has them; specs/Record.antt says what they mean.

pub const RECORD_BYTES: usize = 1203;

pub const MOST_VALUE: usize = 1200;

pub const HEAD_BYTES: usize = 3;

// Where a create's numbers start.
pub const NUMBERS_START: usize = 7;

// What a create's value has before its numbers.
pub const CREATE_BYTES: usize = 4;

// How many numbers a create's record can have.
pub const MOST_NUMBERS: usize = 255;

// The tags of a record, as numbers, for who has no use for the enum; `tag` holds that to them.
pub const OPEN: u32 = 1;

pub const CREATE: u32 = 2;

pub const WRITE: u32 = 3;

pub const COMPLETE: u32 = 4;

pub const CUT: u32 = 5;
