// The next table, made from the one that came; and what is handed back with it.
ghost use Rattle.std.specs.Prelude.{◌≡◌};
ghost use Rattle.rules.specs.Table.{with_slots};
ghost use Rattle.cache.specs.Seen.{seen};
ghost use Rattle.cache.specs.Outcome.{answered};

use crate::types::{Answered, Table};
use rules::Slot;
use rules::refusals::Refusal;
use rules::sizes::SLOTS;

impl Table {
    // The table with other slots.
    pub fn with_slots(self, slots: [Slot; SLOTS]) -> Table
        ensures { seen result ≡ with_slots slots (seen self) }
    {
        Table { slots, ..self }
    }

    // A refusal returns the table as it came.
    pub(crate) fn answered<T>(self, outcome: Result<(Table, T), Refusal>) -> Answered<T>
        ensures { result ≡ answered self outcome }
    {
        match outcome {
            Ok((table, said)) => Answered {
                table,
                answer: Ok(said),
            },
            Err(refusal) => Answered {
                table: self,
                answer: Err(refusal),
            },
        }
    }
}
