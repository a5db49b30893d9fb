// Open: an empty table.
ghost use Rattle.rules.specs.Calls.{Opens};
ghost use Rattle.rules.specs.Open.{opened};
ghost use Rattle.cache.specs.Seen.{seen, opening};
ghost use Rattle.std.specs.Prelude.{◌≡◌};

use crate::types::{Answered, Table};
use rules::Setting;
use rules::refusals::Refusal;
use rules::sizes::{LAST_NUMBER, SLOTS};
use slots::slot::free;

impl Table {
    // The empty table with the setting whose first and next number are n.
    fn empty(setting: Setting, n: u32) -> Table
        ensures { seen result ≡ opened setting n }
    {
        Table {
            setting,
            first: n,
            next: n,
            slots: [free(); SLOTS],
        }
    }

    pub fn open(setting: Setting, first: u32) -> Answered<()>
        ensures { Opens setting first (opening result) }
    {
        if first == 0 || LAST_NUMBER < first {
            return Answered {
                table: Table::empty(setting, 1),
                answer: Err(Refusal::FirstNumber),
            };
        }
        Answered {
            table: Table::empty(setting, first),
            answer: Ok(()),
        }
    }
}
