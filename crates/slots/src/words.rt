// What several files and crates ask of the state of one slot.
ghost use Rattle.std.specs.Prelude.{◌≡◌};
ghost use Rattle.rules.specs.Slots.{is_used, is_hard_patch, room_of};

use rules::{Hold, Kind, State};

pub fn is_used(u: State) -> bool
    ensures { result ≡ is_used u }
{
    !matches!(u, State::Free)
}

// Hard, whether it waits or is in flight.
pub fn is_hard_patch(u: State) -> bool
    ensures { result ≡ is_hard_patch u }
{
    matches!(u, State::Waiting(Hold::Hard) | State::InFlight(Kind::Hard))
}

// The room of a soft waiting patch; 0 for any other, which has none. No Option: `room_of` of rules/specs/Slots.antt,
// by which a table is laid in bytes, has this 0.
pub fn room_of(u: State) -> u32
    ensures { result ≡ room_of u }
{
    match u {
        State::Waiting(Hold::Soft(r)) => r,
        _ => 0,
    }
}
