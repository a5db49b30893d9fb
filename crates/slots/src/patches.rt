// The patches of one block, as sets of slots. Every call that names a block asks for some of these
// sets, so one walk gathers them all, and what a call does not use the compiler leaves out.
ghost use Rattle.std.specs.Prelude.{◌≡◌};
ghost use Rattle.rules.specs.Slots.{is_waiting, is_in_flight, is_hard};
ghost use Rattle.slots.specs.Walks.{PatchesOn};

use crate::types::Patches;
use rules::sizes::SLOTS;
use rules::{Hold, Slot, State};

fn is_waiting(u: State) -> bool
    ensures { result ≡ is_waiting u }
{
    matches!(u, State::Waiting(_))
}

fn is_in_flight(u: State) -> bool
    ensures { result ≡ is_in_flight u }
{
    matches!(u, State::InFlight(_))
}

fn is_hard(u: State) -> bool
    ensures { result ≡ is_hard u }
{
    matches!(u, State::Waiting(Hold::Hard))
}

pub fn patches_on(slots: &[Slot; SLOTS], block: u32) -> Patches
    ensures { PatchesOn slots.now block result }
{
    let mut waiting = 0;
    let mut hard = 0;
    let mut in_flight = 0;
    for (i, s) in slots.iter().enumerate() {
        if s.block != block {
            continue;
        }
        waiting = masks::with_if(waiting, i, is_waiting(s.state));
        hard = masks::with_if(hard, i, is_hard(s.state));
        in_flight = masks::with_if(in_flight, i, is_in_flight(s.state));
    }
    Patches {
        waiting,
        hard,
        in_flight,
    }
}
