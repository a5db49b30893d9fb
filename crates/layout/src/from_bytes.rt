// A table from its bytes. Whether they are one is tested first, since they are input like the rest.
// They have no place for a setting: it is always the board's.
ghost use Rattle.std.specs.Prelude.{◌+◌, ◌≤◌, ◌≡◌, length};
ghost use Rattle.ground.specs.Decides.{Decides};
ghost use Rattle.cache.specs.Seen.{seen};
ghost use Rattle.layout.specs.Layout.{table_bytes, number_at, state_of, slot_in, table_in, table_read, IsTable};

use crate::bytes::array_at;
use crate::sizes::{SLOT_BYTES, SLOTS_START, TABLE_BYTES};
use cache::types::Table;
use rules::sizes::SLOTS;
use rules::{Hold, Kind, Setting, Slot, State};

fn number_at(bytes: &[u8], at: usize) -> u32
    requires { at + 4 ≤ length bytes.now }
    ensures { result ≡ number_at bytes.now at 4 }
{
    u32::from_le_bytes(array_at(bytes, at))
}

// The state of a tag. `table_in` cannot fail: a tag that is no state's, of which no call asks, is read
// as in flight and soft.
fn state_of(tag: u32, room: u32) -> State
    ensures { result ≡ state_of tag room }
{
    match tag {
        0 => State::Free,
        1 => State::Waiting(Hold::Hard),
        2 => State::Waiting(Hold::Soft(room)),
        3 => State::InFlight(Kind::Hard),
        _ => State::InFlight(Kind::Soft),
    }
}

fn slot_in(bytes: &[u8], at: usize) -> Slot
    requires { at + 32 ≤ length bytes.now }
    ensures { result ≡ slot_in bytes.now at }
{
    Slot {
        state: state_of(number_at(bytes, at), number_at(bytes, at + 4)),
        number: number_at(bytes, at + 8),
        block: number_at(bytes, at + 12),
        offset: number_at(bytes, at + 16),
        len: number_at(bytes, at + 20),
        befores: u64::from_le_bytes(array_at(bytes, at + 24)),
    }
}

// Whether the bytes are a table.
pub fn is_table(bytes: &[u8]) -> bool
    ensures { Decides (IsTable bytes.now) result }
{
    bytes.len() == TABLE_BYTES
        && (0..SLOTS).all(|i| number_at(bytes, SLOTS_START + SLOT_BYTES * i) <= 4)
}

// The 64 slots.
fn slots_in(bytes: &[u8]) -> [Slot; SLOTS]
    requires { length bytes.now ≡ table_bytes }
    ensures { result ≡ (table_in bytes.now).slots }
{
    std::array::from_fn(|i| slot_in(bytes, SLOTS_START + SLOT_BYTES * i))
}

// The table in the bytes. Of bytes of another length, of which no call asks, it is an empty one: a function
// that could not fail still cannot, so it is no Option, and `is_table` is asked first.
pub fn table_in(bytes: &[u8]) -> Table
    ensures { seen result ≡ table_read bytes.now }
{
    if bytes.len() != TABLE_BYTES {
        return Table::open(Setting::Board, 1).table;
    }
    Table {
        setting: Setting::Board,
        first: number_at(bytes, 0),
        next: number_at(bytes, 4),
        slots: slots_in(bytes),
    }
}
