// The befores of a new patch: the slots of the named numbers, those whose bytes it shares and the hard
// patches of its block. And the befores that a change adds to the patch which it joins.
#![tactic(auto)]

ghost use Rattle.std.specs.Prelude.{◌≡◌, ◌<◌, ◌^◌};
ghost use Rattle.rules.specs.Create.{change_in, shares, befores, added};
ghost use Rattle.befores.specs.OneSlot.{is_named, follows, elsewhere};

use rules::sizes::SLOTS;
use rules::{Change, Slot};
use slots::words::{is_hard_patch, is_used};

// Whether slot s has a named number. An old number is in no slot.
fn is_named(s: &Slot, change: &Change) -> bool
    ensures { result ≡ is_named s.now (change_in change.now) }
{
    is_used(s.state) && change.named.iter().any(|n| *n == s.number)
}

// Whether two ranges share a byte: the later start is before the earlier end. The sums are of
// 64 bits, so that none of them wraps whatever the offset; no slice is as long as `m` may be.
fn shares(o: u32, l: u32, p: u32, m: usize) -> bool
    requires { m < 2 ^ 63 }
    ensures { result ≡ shares o l p m }
{
    let end = u64::from(o) + u64::from(l);
    let other_end = u64::from(p) + m as u64;
    u64::from(o.max(p)) < end.min(other_end)
}

// Whether the new patch must follow the patch of slot s. A hard patch of its block it follows wherever
// that one lies: the range no longer tells where the changes went that joined it.
fn follows(s: &Slot, change: &Change) -> bool
    ensures { result ≡ follows s.now (change_in change.now) }
{
    is_named(s, change)
        || s.block == change.block
            && (is_hard_patch(s.state)
                || is_used(s.state) && shares(s.offset, s.len, change.offset, change.bytes.len()))
}

// Whether slot s has a named number and a patch of another block.
fn elsewhere(s: &Slot, change: &Change) -> bool
    ensures { result ≡ elsewhere s.now (change_in change.now) }
{
    s.block != change.block && is_named(s, change)
}

pub fn befores(slots: &[Slot; SLOTS], change: &Change) -> u64
    ensures { result ≡ befores slots.now (change_in change.now) }
{
    let mut set = 0;
    for (i, s) in slots.iter().enumerate() {
        set = masks::with_if(set, i, follows(s, change));
    }
    set
}

// What a change that joins a patch adds to its befores. The hard patches of a block leave together, so
// what is named of its own block is dropped. Nothing depends on the change's range.
pub fn added(slots: &[Slot; SLOTS], change: &Change) -> u64
    ensures { result ≡ added slots.now (change_in change.now) }
{
    let mut set = 0;
    for (i, s) in slots.iter().enumerate() {
        set = masks::with_if(set, i, elsewhere(s, change));
    }
    set
}
