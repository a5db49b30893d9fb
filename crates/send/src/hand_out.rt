// The block handed out: the working block, with each patch left behind taken back from its room,
// highest number first. Taken back in any other order, overlapping patches would leave new bytes.
ghost use Rattle.std.specs.Prelude.{◌≡◌};
ghost use Rattle.spans.specs.Spans.{splice, part};
ghost use Rattle.rules.specs.Sizes.{room_start};
ghost use Rattle.rules.specs.Slots.{room_of};
ghost use Rattle.rules.specs.Write.{back_down};
ghost use Rattle.masks.specs.Sets.{has};
ghost use Rattle.send.specs.Back.{HighestOr};
ghost use Rattle.send.specs.Handed.{handed, staying};

use rules::Slot;
use rules::sizes::{BLOCK_BYTES, ROOM_BYTES, SLOTS};
use slots::words::room_of;

// Of the slots of `left`, the lowest with the highest number below `top`. The chain goes from the last slot
// down, as `max_by_key` takes the last of several that are highest.
fn highest(slots: &[Slot; SLOTS], left: u64, top: u32) -> Option<usize>
    ensures { HighestOr slots.now left top 64 result }
{
    slots
        .iter()
        .enumerate()
        .filter(|(i, s)| masks::has(left, *i) && s.number < top)
        .rev()
        .max_by_key(|(_, s)| s.number)
        .map(|(i, _)| i)
}

// The patch of slot s taken back.
fn take_back(out: &mut [u8], undo: &[u8], s: &Slot)
    ensures { out.new ≡ splice out.old s.now.offset (part undo.now (room_start (room_of s.now.state)) s.now.len) }
{
    let from = room_of(s.state) as usize * ROOM_BYTES;
    spans::copy(out, s.offset as usize, undo, from, s.len as usize);
}

// All patches of `left` with a number below `top` taken back.
fn take_all_back(out: &mut [u8], undo: &[u8], slots: &[Slot; SLOTS], left: u64, top: u32)
    ensures { out.new ≡ back_down slots.now (has left) undo.now 0 top out.old }
{
    let mut rest = left;
    while let Some(i) = highest(slots, rest, top) {
        take_back(out, undo, &slots[i]);
        rest = masks::without(rest, masks::with(0, i));
    }
}

// The block as it goes out when the patches of `set` go; `waiting` is the set of the block's waiting
// patches. The promise holds for any sets, slots and sizes. The table's parts go one by one, as its type
// stands with its methods, above.
pub fn hand_out(
    out: &mut [u8],
    image: &[u8],
    undo: &[u8],
    block: u32,
    next: u32,
    slots: &[Slot; SLOTS],
    waiting: u64,
    set: u64,
)
    ensures { out.new ≡ handed slots.now (staying waiting set) block next image.now undo.now out.old }
{
    spans::copy(out, 0, image, block as usize * BLOCK_BYTES, BLOCK_BYTES);
    take_all_back(out, undo, slots, masks::without(waiting, set), next);
}
