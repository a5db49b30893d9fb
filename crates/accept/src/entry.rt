// What becomes of a creation: it joins a waiting patch, or is hard, or is soft with a room. All is judged
// on the slots before the change is in them.
ghost use Rattle.std.specs.Prelude.{◌≡◌};
ghost use Rattle.ground.specs.Decides.{Decides};
ghost use Rattle.masks.specs.Sets.{set_of};
ghost use Rattle.rules.specs.Table.{waits_on};
ghost use Rattle.rules.specs.Create.{WouldBeHard};
ghost use Rattle.accept.specs.Asked.{Enters};
ghost use Rattle.accept.specs.OneSlot.{HoldsBack, LowestNumberedOr};

use crate::types::Entry;
use rules::sizes::SLOTS;
use rules::{Hold, Setting, Slot};
use slots::patches::patches_on;
use slots::setting::{all_soft, joins, rooms};
use slots::words::is_used;

// Whether a patch on another block has one of the waiting patches of the block among its befores.
fn holds_back(s: &Slot, block: u32, waiting: u64) -> bool
    ensures { Decides (HoldsBack block waiting s.now) result }
{
    is_used(s.state) && s.block != block && masks::meets(s.befores, waiting)
}

// Whether a change of the block would be hard; `waiting` are the block's waiting patches.
fn would_be_hard(setting: Setting, slots: &[Slot; SLOTS], block: u32, waiting: u64) -> bool
    requires { waiting ≡ set_of (waits_on slots.now block) }
    ensures { Decides (WouldBeHard setting slots.now block) result }
{
    !all_soft(setting) && !slots.iter().any(|s| holds_back(s, block, waiting))
}

// The slot of the set whose number is lowest, the lowest such slot. (Tried: `filter` and `min_by_key`, and
// proved; create then took 28,744 bytes of stack, where board.h names 16,216.)
fn lowest_numbered(slots: &[Slot; SLOTS], set: u64) -> Option<usize>
    ensures { LowestNumberedOr slots.now set 64 result }
{
    let mut lowest: Option<usize> = None;
    for (i, s) in slots.iter().enumerate() {
        if masks::has(set, i) && lowest.is_none_or(|j| s.number < slots[j].number) {
            lowest = Some(i);
        }
    }
    lowest
}

// A soft patch takes the lowest room outside the set `taken`, whichever set it is: create passes that of
// the rooms that are not free.
pub fn entry_for(setting: Setting, slots: &[Slot; SLOTS], block: u32, taken: u64) -> Entry
    ensures { Enters setting slots.now block taken result }
{
    let on = patches_on(slots, block);
    if would_be_hard(setting, slots, block, on.waiting) {
        match lowest_numbered(slots, on.waiting) {
            Some(j) if joins(setting) => Entry::Joins(j),
            _ => Entry::Own(Some(Hold::Hard)),
        }
    } else {
        let n = rooms(setting);
        match masks::lowest_outside(taken, n) {
            Some(r) => Entry::Own(Some(Hold::Soft(r as u32))),
            None => Entry::Own(None),
        }
    }
}
