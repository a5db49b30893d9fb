// What a replay does with a trace (document 02, request c): each record's call is made on the table that
// the last one left, and a line says what it answered. The program over it only reads and writes.
#![tactic(auto)]

mod calls;
mod create;
mod made;
pub mod run;
pub mod types;
