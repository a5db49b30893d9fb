// What is counted: of a table, and of the writes that empty it.
use crate::files::{BLOCKS, Files};
use cache::types::Table;
use rules::sizes::BLOCK_BYTES;
use rules::{Hold, State};

// The undo bytes that the patches hold. Tried: `.map(|s| u64::from(s.len)).sum()`; that 64 lengths fit resisted.
pub fn bytes_kept(table: &Table) -> u32 {
    table
        .slots
        .iter()
        .filter(|s| matches!(s.state, State::Waiting(Hold::Soft(_))))
        .fold(0, |sum, s| sum.saturating_add(s.len))
}

// Entries made: the numbers issued since the table was opened at 1.
pub fn entries(table: &Table) -> u32 {
    table.next.saturating_sub(1)
}

// How many writes are granted where each block is written once, in rising order, and completed.
pub fn drained(files: &mut Files) -> usize {
    (0..BLOCKS)
        .map(|block| files.write_out(block, &mut [0; BLOCK_BYTES]))
        .filter(|answer| answer.is_ok())
        .count()
}

// How many blocks have a patch that waits.
pub fn waiting(table: &Table) -> usize {
    (0..BLOCKS)
        .filter(|&block| table.count(block).is_ok_and(|n| n != 0))
        .count()
}
