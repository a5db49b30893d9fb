// The library for C and Rust, as an archive: what `board` promises, under the names of board/board.h.
// No crate can stand on an archive, and a library exports nothing: so these are two crates.
#![tactic(auto)]

pub mod calls;
pub mod recording;
