// No crate of this repository calls `set_where`, so that nothing else runs it.
use crate::walks::set_where;
use crate::words::is_used;
use rules::sizes::SLOTS;
use rules::{Hold, Kind, Slot, State};

// Slots 0, 5 and 63 are used, the first two on block 3; slot 40 is free and says block 3 too.
fn some_slots() -> [Slot; SLOTS] {
    let on = |block: u32, state: State| Slot {
        state,
        block,
        ..Slot::default()
    };
    let mut slots = [on(0, State::Free); SLOTS];
    slots[0] = on(3, State::Waiting(Hold::Soft(1)));
    slots[5] = on(3, State::Waiting(Hold::Hard));
    slots[40] = on(3, State::Free);
    slots[63] = on(9, State::InFlight(Kind::Soft));
    slots
}

#[test]
fn set_where_says_which_slots_pass(rt: HostRuntime) {
    let slots = some_slots();
    let used = set_where(&slots, |s| is_used(s.state));
    assert_eq!(rt; used, 0x8000_0000_0000_0021);
    let free = set_where(&slots, |s| s.state == State::Free);
    assert_eq!(rt; free, 0x7fff_ffff_ffff_ffde);
    for (block, on) in [(3, 0x100_0000_0021), (9, 0x8000_0000_0000_0000), (64, 0)] {
        assert_eq!(rt; set_where(&slots, |s| s.block == block), on);
    }
    assert_eq!(rt; set_where(&slots, |_| true), u64::MAX);
}
