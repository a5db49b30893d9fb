// Walks over the 64 slots: the slot of a number, the set of the slots that pass a test, and the numbers alone.
ghost use Rattle.std.specs.Fn.{FnReturnsAt};
ghost use Rattle.slots.specs.Walks.{Found, NumbersOf, SetWhere};

use crate::words::is_used;
use rules::Slot;
use rules::sizes::SLOTS;

// The lowest slot in use that has the number.
pub fn find(slots: &[Slot; SLOTS], number: u32) -> Option<usize>
    ensures { Found slots.now number result }
{
    slots
        .iter()
        .position(|s| s.number == number && is_used(s.state))
}

// The set of the slots that pass the caller's test. It asks only that the test can be called on any slot. It is for
// code outside this repository, whose own walks stand where they are asked for.
pub fn set_where<F: Fn(&Slot) -> bool>(slots: &[Slot; SLOTS], test: F) -> u64
    requires { F.IsAlwaysCallable test }
    ensures { SetWhere (FnReturnsAt F.Fn test) slots.now result }
{
    let mut set = 0;
    for (i, s) in slots.iter().enumerate() {
        set = masks::with_if(set, i, test(s));
    }
    set
}

// The numbers of the slots.
pub fn numbers_of(slots: &[Slot; SLOTS]) -> [u32; SLOTS]
    ensures { NumbersOf slots.now result }
{
    std::array::from_fn(|i| slots[i].number)
}
