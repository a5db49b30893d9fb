// How many changes the patches of a table stand for, and how many of them a cut finds on the store;
// specs/Counts.antt says what is counted. It stands apart from `trace`, which makes the calls.
#![tactic(auto)]

ghost use Rattle.std.specs.Prelude.{◌≡◌, cond, ◌&&◌, eqb};
ghost use Rattle.masks.specs.Sets.{has};
ghost use Rattle.rules.specs.Slots.{is_used, is_in_flight};
ghost use Rattle.tally.specs.Counts.{plus, one_more, carried, cleared, cut_landing};

use rules::sizes::SLOTS;
use rules::{Slot, State};
use slots::words::is_used;

// A sum that stays at its most.
#[tactic(auto, unfolding(crate::specs::Counts::plus))]
pub fn plus(a: u64, b: u64) -> u64
    ensures { result ≡ plus a b }
{
    a.saturating_add(b)
}

// The changes of a slot, n before, with one more where it holds the patch with the number.
fn one_more_in(s: Slot, number: u32, n: u64) -> u64
    ensures { result ≡ cond (is_used s.state && eqb s.number number) (plus n 1) n }
{
    if is_used(s.state) && s.number == number {
        plus(n, 1)
    } else {
        n
    }
}

pub fn one_more(slots: &[Slot; SLOTS], number: u32, changes: &[u64; SLOTS]) -> [u64; SLOTS]
    ensures { result ≡ one_more slots.now number changes.now }
{
    std::array::from_fn(|i| one_more_in(slots[i], number, changes[i]))
}

pub fn carried(changes: &[u64; SLOTS], set: u64) -> u64
    ensures { result ≡ carried changes.now set }
{
    (0..SLOTS)
        .filter(|&i| masks::has(set, i))
        .fold(0, |sum, i| plus(sum, changes[i]))
}

pub fn cleared(changes: &[u64; SLOTS], set: u64) -> [u64; SLOTS]
    ensures { result ≡ cleared changes.now set }
{
    std::array::from_fn(|i| if masks::has(set, i) { 0 } else { changes[i] })
}

// Whether a slot is in flight on a block whose bit is set.
fn lands(s: &Slot, bits: u64) -> bool
    ensures { result ≡ (is_in_flight s.now.state && has bits s.now.block) }
{
    matches!(s.state, State::InFlight(_)) && masks::has(bits, s.block as usize)
}

pub fn cut_landing(slots: &[Slot; SLOTS], bits: u64) -> u64
    ensures { result ≡ cut_landing slots.now bits }
{
    let mut landed = 0;
    for (i, s) in slots.iter().enumerate() {
        landed = masks::with_if(landed, i, lands(s, bits));
    }
    landed
}
