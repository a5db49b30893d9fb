// A session: what the caller of the cache keeps, and its calls. Each prints a line with the row, what the call
// takes, and its whole answer. `source_paper` has a session of its own (`files.rt`): it lends another undo area, and no
// library stands between two programs. Where it prints is no part of it: that is lent, and a session is copied.
use crate::row::Row;
use crate::words::{After, Answer, Asked, Patch, Runs, Second, Slots, Stands, Waiting};
use cache::types::Table;
use rules::refusals::Refusal;
use rules::sizes::{BLOCK_BYTES, IMAGE_BYTES, UNDO_BYTES};
use rules::{Change, Created, Setting};
use std::io;

// The table, the two buffers that go with it, and the row that the next lines belong to.
#[derive(Clone, Copy)]
pub struct Session {
    pub table: Table,
    pub image: [u8; IMAGE_BYTES],
    pub undo: [u8; UNDO_BYTES],
    pub row: Row,
}

impl Session {
    // The undo area holds what it may. 7s show an old byte that was taken from anywhere but a kept room.
    pub fn new() -> Session {
        Session {
            table: Table::open(Setting::Board, 1).table,
            image: [0; IMAGE_BYTES],
            undo: [7; UNDO_BYTES],
            row: Row::Start,
        }
    }

    // The session as it goes on with another row.
    pub fn at(&mut self, row: Row) -> &mut Session {
        self.row = row;
        self
    }

    // A new table; image and undo area go on as they are.
    pub fn open(&mut self, rt: &impl Print, row: Row, first: u32) -> io::Result<()> {
        let opened = Table::open(Setting::Board, first);
        self.row = row;
        self.table = opened.table;
        println!(rt;
            "{row} open first {first}: {} first {} next {}",
            Answer(opened.answer.map(|()| "granted")),
            self.table.first,
            self.table.next
        )
    }

    // Create, and no line.
    pub fn make(&mut self, change: &Change) -> Result<Created, Refusal> {
        let made = self.table.create(&mut self.image, &mut self.undo, change);
        self.table = made.table;
        made.answer
    }

    // Its parts go one by one, so that an example's line reads as the paper's row.
    pub fn create(
        &mut self,
        rt: &impl Print,
        block: u32,
        offset: u32,
        bytes: &[u8],
        named: &[u32],
    ) -> io::Result<()> {
        let answer = self.make(&Change {
            block,
            offset,
            bytes,
            named,
        });
        println!(rt;
            "{} create block {block} offset {offset} bytes{}{}: {}",
            self.row,
            Runs(bytes),
            After(named),
            Answer(answer.map(Patch))
        )
    }

    // The block lent holds 9s, and a refusal leaves it so.
    pub fn write(&mut self, rt: &impl Print, block: u32) -> io::Result<()> {
        let mut handed = [9; BLOCK_BYTES];
        let written = self
            .table
            .write(&self.image, &self.undo, &mut handed, block);
        self.table = written.table;
        println!(rt;
            "{} write block {block}: {};{}",
            self.row,
            Answer(written.answer.map(Slots)),
            Runs(&handed)
        )
    }

    pub fn complete(&mut self, rt: &impl Print, block: u32) -> io::Result<()> {
        let completed = self.table.complete(block);
        self.table = completed.table;
        println!(rt;
            "{} complete block {block}: {}",
            self.row,
            Answer(completed.answer.map(|()| "granted"))
        )
    }

    // The table that the joint call leaves, made on an image that the caller chooses. The block lent holds 9s
    // here too.
    pub fn completed_written(
        &self,
        rt: &impl Print,
        image: &[u8],
        x: u32,
        y: u32,
    ) -> io::Result<Table> {
        let mut handed = [9; BLOCK_BYTES];
        let both = self
            .table
            .complete_write(image, &self.undo, &mut handed, x, y);
        println!(rt;
            "{} complete block {x}, write block {y}: {}, {};{}",
            self.row,
            Answer(both.first.map(|()| "granted")),
            Second(both.second),
            Runs(&handed)
        )?;
        Ok(both.table)
    }

    pub fn complete_write(&mut self, rt: &impl Print, x: u32, y: u32) -> io::Result<()> {
        self.table = self.completed_written(rt, &self.image, x, y)?;
        Ok(())
    }

    pub fn count(&self, rt: &impl Print, block: u32) -> io::Result<()> {
        println!(rt;
            "{} count block {block}: {}",
            self.row,
            Answer(self.table.count(block).map(Waiting))
        )
    }

    pub fn ask(&self, rt: &impl Print, number: u32) -> io::Result<()> {
        println!(rt;
            "{} ask {number}: {}",
            self.row,
            Asked(self.table.ask(number))
        )
    }

    // No call: the patch in slot i, as the table has it, with the slots that it follows.
    pub fn slot(&self, rt: &impl Print, i: usize) -> io::Result<()> {
        let Some(slot) = self.table.slots.get(i) else {
            return Ok(());
        };
        println!(rt;
            "{} slot {i}: number {} {}, offset {} length {}, follows {}",
            self.row,
            slot.number,
            Stands(slot.state),
            slot.offset,
            slot.len,
            Slots(slot.befores)
        )
    }
}
