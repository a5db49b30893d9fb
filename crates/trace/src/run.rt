// The run: what is kept before the first record, and a step for the bytes of each. Image and undo area go
// beside what is kept, and in no struct with it: three of the five calls touch neither, and write only reads them.
ghost use Rattle.std.specs.Prelude.{◌≡◌, replicate};
ghost use Rattle.rules.specs.declared.Setting.TheVariants.{Board};
ghost use Rattle.rules.specs.Sizes.{image_bytes};
ghost use Rattle.rules.specs.Settings.{undo_bytes};
ghost use Rattle.records.specs.declared.types.Next.TheVariants as next;
ghost use Rattle.records.specs.Reader.{only_in, call_in};
ghost use Rattle.lines.specs.Counts.{Counts};
ghost use Rattle.trace.specs.Run.{begun, Makes, Steps};
ghost use Rattle.trace.specs.Seen.{run_of, is_bad, StepCall};
ghost use Rattle.trace.specs.Inside.{step_of, IsOpen, InOrder, MadeBad};

use crate::calls::{make_complete, make_cut, make_open, make_write};
use crate::create::make_create;
use crate::types::{Kept, Made, Phase, Stepped};
use cache::types::Table;
use lines::types::{Line, More, Word};
use lines::{LINE_BYTES, spell};
use records::reader::only_in;
use records::types::{Found, Next};
use rules::Setting;
use rules::refusals::Refusal;
use rules::sizes::SLOTS;

// Nothing is opened yet. The image and the undo area that go with it are all zero.
pub fn start() -> Kept
    ensures { run_of result (replicate image_bytes 0) (replicate (undo_bytes Board) 0) ≡ begun }
{
    Kept {
        phase: Phase::Unopened,
        place: 1,
        table: Table::open(Setting::Board, 1).table,
        changes: [0; SLOTS],
        committed: 0,
    }
}

fn is_open(found: Found) -> bool
    ensures { IsOpen found result }
{
    matches!(found, Found::Open(_))
}

// Open comes first and is not given again; nothing comes after a cut.
fn is_in_order(phase: Phase, found: Found) -> bool
    ensures { InOrder phase found result }
{
    match phase {
        Phase::Unopened => is_open(found),
        Phase::Opened => !is_open(found),
        Phase::Over => false,
    }
}

// The line of a bad record, after which the run is over.
fn made_bad(kept: Kept) -> Made
    ensures { MadeBad kept result }
{
    Made {
        kept: Kept {
            phase: Phase::Over,
            ..kept
        },
        line: Line {
            place: kept.place,
            word: Word::Bad,
            number: u64::from(Refusal::NoRecord.number()),
            more: More::Nothing,
        },
    }
}

// The call that was found, made. That the bytes are its record stands in four functions: two speak of what
// was found, two of its head, from which a creation is read.
fn made_call(kept: Kept, image: &mut [u8], undo: &mut [u8], bytes: &[u8], found: Found) -> Made
    requires { only_in bytes.now ≡ next.Record found }
    ensures { Makes (run_of kept image.old undo.old) (call_in bytes.now found)
        (step_of result image.new undo.new) }
{
    match found {
        Found::Open(first) => make_open(kept, first),
        Found::Create(head) => make_create(kept, image, undo, bytes, head),
        Found::Write(block) => make_write(kept, image, undo, block),
        Found::Complete(block) => make_complete(kept, block),
        Found::Cut(bits) => make_cut(kept, bits),
    }
}

// The call that was found, made if it comes in its order.
fn made_found(kept: Kept, image: &mut [u8], undo: &mut [u8], bytes: &[u8], found: Found) -> Made
    requires { only_in bytes.now ≡ next.Record found }
    ensures { Steps (run_of kept image.old undo.old) bytes.now
        (step_of result image.new undo.new) }
{
    if !is_in_order(kept.phase, found) {
        return made_bad(kept);
    }
    made_call(kept, image, undo, bytes, found)
}

// What the bytes of one record come to: its call, made, or bad.
fn made_of(kept: Kept, image: &mut [u8], undo: &mut [u8], bytes: &[u8]) -> Made
    ensures { Steps (run_of kept image.old undo.old) bytes.now
        (step_of result image.new undo.new) }
{
    match only_in(bytes) {
        Next::Record(found) => made_found(kept, image, undo, bytes, found),
        Next::NoneYet(_) | Next::Bad => made_bad(kept),
    }
}

fn is_bad(word: Word) -> bool
    ensures { result ≡ is_bad word }
{
    matches!(word, Word::Bad)
}

// The bytes of one record: its call is made, and its line put into the lent buffer.
pub fn step(
    kept: Kept,
    image: &mut [u8],
    undo: &mut [u8],
    bytes: &[u8],
    line: &mut [u8; LINE_BYTES],
) -> Stepped
    ensures step_call { StepCall (run_of kept image.old undo.old) bytes.now line.old result
        image.new undo.new line.new }
    ensures counts { Counts result.length line.new }
{
    let made = made_of(kept, image, undo, bytes);
    Stepped {
        kept: made.kept,
        length: spell(made.line, line),
        bad: is_bad(made.line.word),
    }
}
