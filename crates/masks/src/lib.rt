// Sets of slots as u64 masks: the operations that the calls use, each said of membership.
// They take any number for a slot, so that none of them asks anything of its caller: a set has
// no slot above 63.
#![tactic(auto)]

ghost use Rattle.std.specs.Prelude.{◌≡◌, ◌&&◌, ◌||◌, not, eqb};
ghost use Rattle.masks.specs.Sets.{has, set_of, within, Meet};
ghost use Rattle.masks.specs.Lowest.{LowestOr, Outside};
ghost use Rattle.ground.specs.Decides.{Decides};

// The last slot that a set can have.
const LAST_SLOT: usize = 63;

// Whether slot i is in the set.
pub fn has(set: u64, i: usize) -> bool
    ensures { result ≡ has set i }
{
    i <= LAST_SLOT && (set >> i) & 1 == 1
}

// The set with slot i besides.
pub fn with(set: u64, i: usize) -> u64
    ensures { result ≡ set_of (λ k. has set k || eqb k i) }
{
    if LAST_SLOT < i { set } else { set | 1 << i }
}

// The set with slot i besides, where `goes` says so.
pub fn with_if(set: u64, i: usize, goes: bool) -> u64
    ensures { result ≡ set_of (λ k. has set k || (goes && eqb k i)) }
{
    if goes { with(set, i) } else { set }
}

// The set of the slots that are in a or in b.
pub fn either(a: u64, b: u64) -> u64
    ensures { result ≡ set_of (λ k. has a k || has b k) }
{
    a | b
}

// The set without the slots of another.
pub fn without(set: u64, gone: u64) -> u64
    ensures { result ≡ set_of (λ k. has set k && not (has gone k)) }
{
    set & !gone
}

// Whether every slot of a is in b.
pub fn within(a: u64, b: u64) -> bool
    ensures { result ≡ within a b }
{
    a & !b == 0
}

// Whether some slot is in both.
pub fn meets(a: u64, b: u64) -> bool
    ensures { Decides (Meet a b) result }
{
    a & b != 0
}

// The lowest number below n that is not in the set.
pub fn lowest_outside(set: u64, n: usize) -> Option<usize>
    ensures { LowestOr n (Outside set) result }
{
    let Some(i) = (0..n).find(|&i| !has(set, i)) else {
        return None;
    };
    Some(i)
}
