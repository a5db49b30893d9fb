// One slot with another state, one with other befores, and a free one.
ghost use Rattle.std.specs.Prelude.{◌≡◌};
ghost use Rattle.rules.specs.Slots.{with_state, with_befores, free_slot};

use rules::{Slot, State};

pub fn with_state(s: Slot, state: State) -> Slot
    ensures { result ≡ with_state state s }
{
    Slot { state, ..s }
}

pub fn with_befores(s: Slot, befores: u64) -> Slot
    ensures { result ≡ with_befores befores s }
{
    Slot { befores, ..s }
}

pub fn free() -> Slot
    ensures { result ≡ free_slot }
{
    Slot::default()
}
