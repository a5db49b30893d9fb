// A table into its bytes. Each number is laid as the array of its bytes, which the compiler joins to
// one store: a table is written on every granted call.
ghost use Rattle.std.specs.Prelude.{◌+◌, ◌≤◌, length, ◌≡◌};
ghost use Rattle.spans.specs.Spans.{splice};
ghost use Rattle.cache.specs.Seen.{seen};
ghost use Rattle.layout.specs.Layout.{tag_of, slot_bytes, table_stored};

use crate::bytes::put;
use crate::sizes::{SLOT_BYTES, SLOTS_START, TABLE_BYTES};
use cache::types::Table;
use rules::{Hold, Kind, Slot, State};
use slots::words::room_of;

// No `From`: both types are another crate's.
fn tag_of(u: State) -> u32
    ensures { result ≡ tag_of u }
{
    match u {
        State::Free => 0,
        State::Waiting(Hold::Hard) => 1,
        State::Waiting(Hold::Soft(_)) => 2,
        State::InFlight(Kind::Hard) => 3,
        State::InFlight(Kind::Soft) => 4,
    }
}

fn put_slot(bytes: &mut [u8], at: usize, slot: Slot)
    requires { at + 32 ≤ length bytes.old }
    ensures { bytes.new ≡ splice bytes.old at (slot_bytes slot) }
{
    put(bytes, at, tag_of(slot.state).to_le_bytes());
    put(bytes, at + 4, room_of(slot.state).to_le_bytes());
    put(bytes, at + 8, slot.number.to_le_bytes());
    put(bytes, at + 12, slot.block.to_le_bytes());
    put(bytes, at + 16, slot.offset.to_le_bytes());
    put(bytes, at + 20, slot.len.to_le_bytes());
    put(bytes, at + 24, slot.befores.to_le_bytes());
}

// The whole table over bytes that are as many; other bytes, of which no call asks, stay as they are.
pub fn store(bytes: &mut [u8], table: &Table)
    ensures { bytes.new ≡ table_stored bytes.old (seen table.now) }
{
    if bytes.len() != TABLE_BYTES {
        return;
    }
    put(bytes, 0, table.first.to_le_bytes());
    put(bytes, 4, table.next.to_le_bytes());
    for (i, slot) in table.slots.iter().enumerate() {
        put_slot(bytes, SLOTS_START + SLOT_BYTES * i, *slot);
    }
}
