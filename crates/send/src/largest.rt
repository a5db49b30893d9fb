// The search for the largest set that may go: it starts from all waiting patches of a block and
// strikes, round by round, each patch with a before outside the set the round began with. A struck
// hard patch strikes all, since what it wrote cannot be taken back.
ghost use Rattle.std.specs.Prelude.{◌≡◌};
ghost use Rattle.rules.specs.Rounds.{searched};

use rules::Slot;
use rules::sizes::SLOTS;
use slots::types::Patches;

// The loop with its label and its `break` with a value is a form that document 01 names by place.
pub fn largest(slots: &[Slot; SLOTS], on: Patches) -> u64
    ensures { result ≡ searched slots.now on.hard on.waiting }
{
    let mut began = on.waiting;
    loop {
        let mut kept = began;
        'walk: for (i, s) in slots.iter().enumerate() {
            if masks::has(began, i) && !masks::within(s.befores, began) {
                if masks::has(on.hard, i) {
                    kept = 0;
                    break 'walk;
                }
                kept = masks::without(kept, masks::with(0, i));
            }
        }
        if kept == began {
            break kept;
        }
        began = kept;
    }
}
