// The create of a record, made: its numbers and its data stand in the record's bytes.
ghost use Rattle.std.specs.Prelude.{◌≡◌};
ghost use Rattle.records.specs.declared.types.Found.TheVariants as found;
ghost use Rattle.records.specs.declared.types.Next.TheVariants as next;
ghost use Rattle.records.specs.Reader.{only_in, call_in};
ghost use Rattle.trace.specs.Run.{Makes, changes_after, create_more};
ghost use Rattle.trace.specs.Seen.{run_of};
ghost use Rattle.trace.specs.Inside.{step_of, CreatedBy};
ghost use Rattle.cache.specs.Seen.{seen};

use crate::made::{answer_number, told};
use crate::types::{Kept, Made, Phase};
use cache::types::{Answered, Table};
use lines::types::{More, Word};
use records::reader::numbers_in;
use records::sizes::NUMBERS_START;
use records::types::Head;
use rules::refusals::Refusal;
use rules::sizes::SLOTS;
use rules::{Change, Created, Slot};
use tally::one_more;

// The patch's number, and hard or soft.
fn create_more(answer: Result<Created, Refusal>) -> More
    ensures { result ≡ create_more answer }
{
    match answer {
        Ok(created) => More::Patch(created.number, created.hold),
        Err(_) => More::Nothing,
    }
}

// The patch that the change became or joined stands for one change more.
fn changes_after(
    answer: Result<Created, Refusal>,
    slots: &[Slot; SLOTS],
    changes: &[u64; SLOTS],
) -> [u64; SLOTS]
    ensures { result ≡ changes_after answer slots.now changes.now }
{
    match answer {
        Ok(created) => one_more(slots, created.number, changes),
        Err(_) => *changes,
    }
}

// The create whose record the bytes are, on the table.
fn created(
    t: Table,
    image: &mut [u8],
    undo: &mut [u8],
    bytes: &[u8],
    head: Head,
) -> Answered<Created>
    requires { only_in bytes.now ≡ next.Record (found.Create head) }
    ensures { CreatedBy (seen t) image.old undo.old bytes.now head result image.new undo.new }
{
    let names = head.names;
    let named = numbers_in(bytes, names);
    let start = NUMBERS_START + 4 * names;
    let change = Change {
        block: head.block,
        offset: head.offset,
        bytes: &bytes[start..],
        named: &named[..names],
    };
    t.create(image, undo, &change)
}

pub(crate) fn make_create(
    kept: Kept,
    image: &mut [u8],
    undo: &mut [u8],
    bytes: &[u8],
    head: Head,
) -> Made
    requires { only_in bytes.now ≡ next.Record (found.Create head) }
    ensures { Makes (run_of kept image.old undo.old) (call_in bytes.now (found.Create head))
        (step_of result image.new undo.new) }
{
    let created = created(kept.table, image, undo, bytes, head);
    let number = answer_number(&created.answer);
    let next = Kept {
        phase: Phase::Opened,
        table: created.table,
        changes: changes_after(created.answer, &created.table.slots, &kept.changes),
        ..kept
    };
    told(next, Word::Create, number, create_more(created.answer))
}
