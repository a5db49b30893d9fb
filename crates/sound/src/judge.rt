// Whether a table is sound: each patch by itself, then beside those of the slots below it.
ghost use Rattle.std.specs.Prelude.{◌≡◌};
ghost use Rattle.ground.specs.Decides.{Decides};
ghost use Rattle.masks.specs.Sets.{set_of};
ghost use Rattle.rules.specs.Slots.{has_room};
ghost use Rattle.rules.specs.Table.{Sound, table_of};
ghost use Rattle.sound.specs.SlotSound.{HeaderInRange, InRange, Alone, ComesAgain, Marking};
ghost use Rattle.sound.specs.Verdict.{IsVerdict};

use crate::types::InUse;
use rules::sizes::{BLOCK_END, LAST_BLOCK, LAST_NEXT, LAST_NUMBER, MOST_LEN, SLOTS};
use rules::{Hold, Setting, Slot, State};
use slots::setting::rooms;
use slots::walks::find;
use slots::words::{is_used, room_of};

// Whether the first and the next number are within their bounds.
fn header_in_range(first: u32, next: u32) -> bool
    ensures { Decides (HeaderInRange first next) result }
{
    (1..=LAST_NUMBER).contains(&first) && (first..=LAST_NEXT).contains(&next)
}

// Whether number, block and range are within their bounds. No sum can wrap: the length is at most 64.
fn in_range(s: &Slot, first: u32, next: u32) -> bool
    ensures { Decides (InRange first next s.now) result }
{
    (first..next).contains(&s.number)
        && s.block <= LAST_BLOCK
        && (1..=MOST_LEN).contains(&s.len)
        && s.offset <= BLOCK_END - s.len
}

// Whether the patch of slot i is sound by itself, where there are so many rooms.
fn sound_alone(s: &Slot, i: usize, first: u32, next: u32, rooms: usize) -> bool
    ensures { Decides (Alone first next rooms i s.now) result }
{
    in_range(s, first, next) && !masks::has(s.befores, i) && (room_of(s.state) as usize) < rooms
}

// Whether the number comes again in slot i: a slot below is in use with it.
fn comes_again(slots: &[Slot; SLOTS], number: u32, i: usize) -> bool
    ensures { Decides (ComesAgain slots.now number i) result }
{
    find(slots, number).is_some_and(|j| j < i)
}

// The undo room of a patch as a set: rooms gathered in a set are looked up without a walk. No set
// has a room above 63, and neither has a sound table.
fn room_set(u: State) -> u64
    ensures { result ≡ set_of (has_room u) }
{
    match u {
        State::Waiting(Hold::Soft(r)) => masks::with(0, r as usize),
        _ => 0,
    }
}

// Marks a number by its ten lowest binary digits, and says whether that mark was there: a number
// that comes again finds its mark, and so does one that only ends in the same digits.
fn mark(marks: &mut [u64; 16], n: u32) -> bool
    ensures { Marking marks.old n result marks.new }
{
    let at = (n / 64 % 16) as usize;
    let digits = (n % 64) as usize;
    let marked = marks[at];
    marks[at] = masks::with(marked, digits);
    masks::has(marked, digits)
}

// The first and the next number, then slot by slot. What is asked of a patch beside others is
// gathered along the way, so that one walk does: the rooms, the slots in use, all befores, and the
// marks of the numbers, of which only one that is there already asks for a search. The parts of a table
// go one by one: its type stands with its methods, in `cache`, and an impl of another crate's type is refused.
pub fn judge(setting: Setting, first: u32, next: u32, slots: &[Slot; SLOTS]) -> Option<InUse>
    ensures { IsVerdict setting first next slots.now result }
{
    if !header_in_range(first, next) {
        return None;
    }
    let most = rooms(setting);
    let mut marks = [0; 16];
    let mut taken = 0;
    let mut used = 0;
    let mut befores = 0;
    for (i, s) in slots.iter().enumerate() {
        if !is_used(s.state) {
            continue;
        }
        if !sound_alone(s, i, first, next, most) {
            return None;
        }
        if mark(&mut marks, s.number) && comes_again(slots, s.number, i) {
            return None;
        }
        let room = room_set(s.state);
        if masks::meets(taken, room) {
            return None;
        }
        taken = masks::either(taken, room);
        used = masks::with(used, i);
        befores = masks::either(befores, s.befores);
    }
    masks::within(befores, used).then_some(InUse { used, rooms: taken })
}

pub fn is_sound(setting: Setting, first: u32, next: u32, slots: &[Slot; SLOTS]) -> bool
    ensures { Decides (Sound (table_of setting first next slots.now)) result }
{
    judge(setting, first, next, slots).is_some()
}
