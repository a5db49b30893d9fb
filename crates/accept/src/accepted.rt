// The slots with a change in them: as a new patch in one of them, or joined to the patch of one. A hard
// creation turns the block's soft patches hard, whether it joins or not.
ghost use Rattle.std.specs.Prelude.{◌≡◌, eqb};
ghost use Rattle.rules.specs.Table.{slot_at, slots_by};
ghost use Rattle.rules.specs.Create.{turned_state, accepted_slots, joined_slot};

use rules::sizes::SLOTS;
use rules::{Hold, Slot, State};

// A waiting patch becomes hard, and has no room any more.
fn turned_state(u: State) -> State
    ensures { result ≡ turned_state u }
{
    match u {
        State::Waiting(_) => State::Waiting(Hold::Hard),
        State::Free | State::InFlight(_) => u,
    }
}

// The slots with the patch in slot j. That it is hard its state says too; `accepted_slots` takes both.
pub fn accepted(slots: &[Slot; SLOTS], patch: Slot, j: usize, hold: Hold) -> [Slot; SLOTS]
    ensures { result ≡ accepted_slots slots.now patch j hold }
{
    let mut next = *slots;
    for (i, s) in next.iter_mut().enumerate() {
        if i == j {
            *s = patch;
        } else if matches!(hold, Hold::Hard) && s.block == patch.block {
            s.state = turned_state(s.state);
        }
    }
    next
}

// The slots when a change of the block joins the patch of slot j and adds to its befores. Number, block
// and range stay.
pub fn joined(slots: &[Slot; SLOTS], block: u32, added: u64, j: usize) -> [Slot; SLOTS]
    ensures { result ≡ slots_by (λ i. joined_slot added block (eqb i j) (slot_at slots.now i)) }
{
    let mut next = *slots;
    for (i, s) in next.iter_mut().enumerate() {
        if s.block == block {
            s.state = turned_state(s.state);
        }
        if i == j {
            s.befores = masks::either(s.befores, added);
        }
    }
    next
}
