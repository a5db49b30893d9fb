// The calls of records, made: open, write, complete and cut. Create, which has numbers and data in its
// record, stands apart.
ghost use Rattle.std.specs.Prelude.{◌≡◌};
ghost use Rattle.records.specs.Record.{opens, writes, completes, cuts};
ghost use Rattle.trace.specs.Run.{Makes, write_more, changes_left, now_committed};
ghost use Rattle.trace.specs.Seen.{run_of};
ghost use Rattle.trace.specs.Inside.{step_of, MakesAlone};

use crate::made::{answer_number, told};
use crate::types::{Kept, Made, Phase};
use cache::types::Table;
use lines::types::{More, Word};
use rules::Setting;
use rules::refusals::Refusal;
use rules::sizes::{BLOCK_BYTES, SLOTS};
use slots::patches::patches_on;
use tally::{carried, cleared, cut_landing, plus};

// Whether it is granted or refused, what follows is the table that open gave.
pub(crate) fn make_open(kept: Kept, first: u32) -> Made
    ensures { MakesAlone kept (opens first) result }
{
    let opened = Table::open(Setting::Board, first);
    let number = answer_number(&opened.answer);
    let next = Kept {
        phase: Phase::Opened, // refused or not
        table: opened.table,
        ..kept
    };
    told(next, Word::Open, number, More::Nothing)
}

// How many patches went.
fn write_more(answer: Result<u64, Refusal>) -> More
    ensures { result ≡ write_more answer }
{
    match answer {
        Ok(set) => More::Patches(set.count_ones()),
        Err(_) => More::Nothing,
    }
}

pub(crate) fn make_write(kept: Kept, image: &[u8], undo: &[u8], block: u32) -> Made
    ensures { Makes (run_of kept image.now undo.now) (writes block) (step_of result image.now undo.now) }
{
    let mut handed = [0; BLOCK_BYTES];
    let written = kept.table.write(image, undo, &mut handed, block);
    let number = answer_number(&written.answer);
    let next = Kept {
        phase: Phase::Opened,
        table: written.table,
        ..kept
    };
    told(next, Word::Write, number, write_more(written.answer))
}

// The changes of the slots of the set are counted as committed once these are granted their completion.
fn changes_left(answer: Result<(), Refusal>, landed: u64, changes: &[u64; SLOTS]) -> [u64; SLOTS]
    ensures { result ≡ changes_left answer landed changes.now }
{
    match answer {
        Ok(()) => cleared(changes, landed),
        Err(_) => *changes,
    }
}

fn now_committed(
    answer: Result<(), Refusal>,
    landed: u64,
    changes: &[u64; SLOTS],
    committed: u64,
) -> u64
    ensures { result ≡ now_committed answer landed changes.now committed }
{
    match answer {
        Ok(()) => plus(committed, carried(changes, landed)),
        Err(_) => committed,
    }
}

pub(crate) fn make_complete(kept: Kept, block: u32) -> Made
    ensures { MakesAlone kept (completes block) result }
{
    let landed = patches_on(&kept.table.slots, block).in_flight;
    let completed = kept.table.complete(block);
    let number = answer_number(&completed.answer);
    let next = Kept {
        phase: Phase::Opened,
        table: completed.table,
        changes: changes_left(completed.answer, landed, &kept.changes),
        committed: now_committed(completed.answer, landed, &kept.changes, kept.committed),
        ..kept
    };
    told(next, Word::Complete, number, More::Nothing)
}

// Bit b of `bits` is set when block b's write in flight landed.
pub(crate) fn make_cut(kept: Kept, bits: u64) -> Made
    ensures { MakesAlone kept (cuts bits) result }
{
    let landed = carried(&kept.changes, cut_landing(&kept.table.slots, bits));
    let number = plus(kept.committed, landed);
    let next = Kept {
        phase: Phase::Over,
        ..kept
    };
    told(next, Word::Cut, number, More::Nothing)
}
