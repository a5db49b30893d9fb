// The slots with a set of patches in flight.
ghost use Rattle.std.specs.Prelude.{◌≡◌};
ghost use Rattle.rules.specs.Write.{sent_state, sent_slots};

use rules::sizes::SLOTS;
use rules::{Hold, Kind, Slot, State};

// A patch in flight is hard or soft as it waited.
fn sent_state(u: State) -> State
    ensures { result ≡ sent_state u }
{
    match u {
        State::Waiting(Hold::Hard) => State::InFlight(Kind::Hard),
        State::Waiting(Hold::Soft(_)) => State::InFlight(Kind::Soft),
        State::Free | State::InFlight(_) => u,
    }
}

pub fn sent(slots: &[Slot; SLOTS], set: u64) -> [Slot; SLOTS]
    ensures { result ≡ sent_slots slots.now set }
{
    let mut next = *slots;
    for (i, s) in next.iter_mut().enumerate() {
        if masks::has(set, i) {
            s.state = sent_state(s.state);
        }
    }
    next
}
