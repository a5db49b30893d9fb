// Create's refusals 1 to 7. Numbers 8 to 10 ask the slots, and are judged where the change takes one.
ghost use Rattle.std.specs.Prelude.{◌≡◌, Some, is_some, IfOk};
ghost use Rattle.rules.specs.Create.{change_in};
ghost use Rattle.rules.specs.Refusals.{First};
ghost use Rattle.rules.specs.Calls.{answer_number};
ghost use Rattle.early.specs.Early.{CreateEarly, lent_cases, place_cases, name_cases};

use crate::named::unissued;
use rules::refusals::Refusal;
use rules::sizes::{BLOCK_BYTES, IMAGE_BYTES, LAST_BLOCK, MOST_BYTES, MOST_NAMED};
use rules::{Change, Setting};
use slots::setting::undo_bytes;

// 1: the working image and the undo area.
fn judge_lent(setting: Setting, image: &[u8], undo: &[u8]) -> Result<(), Refusal>
    ensures { First (lent_cases setting image.now undo.now) (answer_number result) }
{
    if image.len() != IMAGE_BYTES || undo.len() != undo_bytes(setting) {
        return Err(Refusal::BufferSize);
    }
    Ok(())
}

// 3 to 5: where the change goes. No sum is formed before its parts are bounded.
fn judge_place(change: &Change) -> Result<(), Refusal>
    ensures { First (place_cases (change_in change.now)) (answer_number result) }
{
    if LAST_BLOCK < change.block {
        return Err(Refusal::NoBlock);
    }
    let n = change.bytes.len();
    if n == 0 || MOST_BYTES < n {
        return Err(Refusal::DataLength);
    }
    if BLOCK_BYTES - n < change.offset as usize {
        return Err(Refusal::PastTheEnd);
    }
    Ok(())
}

// 6 and 7: the named numbers.
fn judge_names(next: u32, change: &Change) -> Result<(), Refusal>
    ensures { First (name_cases next (change_in change.now)) (answer_number result) }
{
    if MOST_NAMED < change.named.len() {
        return Err(Refusal::ManyNames);
    }
    if unissued(next, change.named) {
        return Err(Refusal::NeverIssued);
    }
    Ok(())
}

// The first of the refusals 1 to 7 that holds; `next` is the table's next number, and `sound` has something
// where the table is sound: it is what a caller gets that may go on. Image and undo area are two buffers of the
// caller's, as in document 01.
pub fn ready_to_create<T: Copy>(
    setting: Setting,
    next: u32,
    image: &[u8],
    undo: &[u8],
    change: &Change,
    sound: Option<T>,
) -> Result<T, Refusal>
    ensures refusal { CreateEarly setting next (is_some sound) image.now undo.now (change_in change.now) (answer_number result) }
    ensures passes { IfOk result (λ v. sound ≡ Some v) }
{
    judge_lent(setting, image, undo)?;
    let verdict = sound.ok_or(Refusal::NotSound)?;
    judge_place(change)?;
    judge_names(next, change)?;
    Ok(verdict)
}
