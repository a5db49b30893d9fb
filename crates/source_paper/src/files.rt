// The paper's file system on the cache: its blocks, what its caller keeps, and the calls.
use cache::types::Table;
use rules::refusals::Refusal;
use rules::sizes::{BLOCK_BYTES, IMAGE_BYTES, MORE_ROOMS, ROOM_BYTES};
use rules::{Change, Created, Hold, Setting};
use slots::setting::undo_bytes;

pub const SUPER: u32 = 0;

pub const GROUP: u32 = 1;

pub const BITMAP: u32 = 2;

// The first of four data blocks.
pub const DATA: u32 = 3;

pub const INODE: u32 = 7;

// How many blocks there are.
pub const BLOCKS: u32 = 8;

// The longest undo area that a setting asks for.
const MOST_UNDO: usize = MORE_ROOMS * ROOM_BYTES;

// The table and the two buffers that go with it; how many changes were accepted so far, and how many of these
// hard.
#[derive(Clone, Copy)]
pub struct Files {
    pub table: Table,
    image: [u8; IMAGE_BYTES],
    undo: [u8; MOST_UNDO],
    pub accepted: u32,
    pub hard: u32,
}

impl Files {
    // On an image of zeros. What an undo area holds at first is never read; 7s would show.
    pub fn opened(setting: Setting) -> Files {
        Files {
            table: Table::open(setting, 1).table,
            image: [0; IMAGE_BYTES],
            undo: [7; MOST_UNDO],
            accepted: 0,
            hard: 0,
        }
    }

    // Create. The cache is lent as much of the undo area as the setting says.
    #[tactic(auto, using(rules::proofs::Rooms::rooms_most))]
    fn make(&mut self, change: &Change) -> Result<Created, Refusal> {
        let n = undo_bytes(self.table.setting);
        let (undo, _) = self.undo.split_at_mut(n);
        let made = self.table.create(&mut self.image, undo, change);
        self.table = made.table;
        made.answer
    }

    // The number of the patch that a change became or joined. Its parts go one by one, so that a step reads as
    // the paper's.
    pub fn change(
        &mut self,
        block: u32,
        offset: u32,
        bytes: &[u8],
        named: &[u32],
    ) -> Result<u32, Refusal> {
        let Created { number, hold } = self.make(&Change {
            block,
            offset,
            bytes,
            named,
        })?;
        self.accepted = self.accepted.saturating_add(1);
        if hold == Hold::Hard {
            self.hard = self.hard.saturating_add(1);
        }
        Ok(number)
    }

    // A write of the block, then its completion, which is refused where nothing was handed out; the answer is the write's.
    #[tactic(auto, using(rules::proofs::Rooms::rooms_most))]
    pub fn write_out(
        &mut self,
        block: u32,
        handed: &mut [u8; BLOCK_BYTES],
    ) -> Result<u64, Refusal> {
        let n = undo_bytes(self.table.setting);
        let written = self
            .table
            .write(&self.image, &self.undo[..n], handed, block);
        self.table = written.table.complete(block).table;
        written.answer
    }
}
