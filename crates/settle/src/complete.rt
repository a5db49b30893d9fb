// The slots with a set of patches committed: their slots free, and no patch after them.
ghost use Rattle.std.specs.Prelude.{◌≡◌};
ghost use Rattle.rules.specs.Complete.{landed_slots};

use rules::Slot;
use rules::sizes::SLOTS;
use slots::slot::free;
use slots::words::is_used;

// The patches of `landed` commit, whichever set it is: complete passes that of a block's patches in
// flight. Their slots become free. A patch that stays loses them from its befores, and what is left in
// a free slot stays.
pub fn completed(slots: &[Slot; SLOTS], landed: u64) -> [Slot; SLOTS]
    ensures { result ≡ landed_slots slots.now landed }
{
    let mut next = *slots;
    for (i, s) in next.iter_mut().enumerate() {
        if masks::has(landed, i) {
            *s = free();
        } else if is_used(s.state) {
            s.befores = masks::without(s.befores, landed);
        }
    }
    next
}
