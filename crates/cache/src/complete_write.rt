// Complete and go on: the joint call, for a driver that completes one block and at once writes
// another. It makes those two calls and does nothing else.
ghost use Rattle.rules.specs.Joint.{CompletesWrites};
ghost use Rattle.cache.specs.Seen.{seen, joint};

use crate::types::{CompletedWritten, Table};

impl Table {
    // Complete block x, then write block y on the table that the completion gave.
    pub fn complete_write(
        self,
        image: &[u8],
        undo: &[u8],
        handed: &mut [u8],
        x: u32,
        y: u32,
    ) -> CompletedWritten
        ensures { CompletesWrites (seen self) image.now undo.now handed.old x y
            (joint result image.now undo.now handed.new) }
    {
        let completed = self.complete(x);
        let Ok(()) = completed.answer else {
            return CompletedWritten {
                table: completed.table,
                first: completed.answer,
                second: None,
            };
        };
        let written = completed.table.write(image, undo, handed, y);
        let Ok(_) = written.answer else {
            // Refused: the table that the completion left stands.
            let stands = written.table;
            return CompletedWritten {
                table: stands,
                first: completed.answer,
                second: Some(written.answer),
            };
        };
        CompletedWritten {
            table: written.table,
            first: completed.answer,
            second: Some(written.answer),
        }
    }
}
