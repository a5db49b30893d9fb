// The sizes of document 01, as the code has them. Each promise above cites specs/Sizes.antt, and no proof
// of it goes through unless the two agree.

pub const SLOTS: usize = 64;

pub const LAST_SLOT: usize = SLOTS - 1;

pub const LAST_BLOCK: u32 = 63;

// Undo rooms: on the board, and where undo is measured.
pub const ROOMS: usize = 16;

pub const MORE_ROOMS: usize = 64;

pub const LAST_NUMBER: u32 = 1000000000;

pub const LAST_NEXT: u32 = 1000000001;

pub const MOST_NAMED: usize = 8;

// In bytes.
pub const IMAGE_BYTES: usize = 16384;

// The undo area of the board.
pub const UNDO_BYTES: usize = 1024;

pub const BLOCK_BYTES: usize = 256;

pub const ROOM_BYTES: usize = 64;

pub const MOST_BYTES: usize = 64;

// The same two of a slot, whose offset and length are numbers of 32 bits.
pub const BLOCK_END: u32 = BLOCK_BYTES as u32;

pub const MOST_LEN: u32 = MOST_BYTES as u32;
