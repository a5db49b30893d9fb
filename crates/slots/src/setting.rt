// What a setting says: how many undo rooms there are, whether a change joins, whether every patch is
// soft. No other code takes a setting apart.
ghost use Rattle.std.specs.Prelude.{◌≡◌};
ghost use Rattle.rules.specs.Settings.{rooms, joins, all_soft, undo_bytes};

use rules::Setting;
use rules::sizes::{MORE_ROOMS, ROOM_BYTES, ROOMS};

#[tactic(auto, unfolding(rules::specs::Settings::rooms))]
pub fn rooms(setting: Setting) -> usize
    ensures { result ≡ rooms setting }
{
    match setting {
        Setting::Board => ROOMS,
        Setting::AllSoft | Setting::HardRule => MORE_ROOMS,
    }
}

#[tactic(auto, unfolding(rules::specs::Settings::joins))]
pub fn joins(setting: Setting) -> bool
    ensures { result ≡ joins setting }
{
    matches!(setting, Setting::Board)
}

#[tactic(auto, unfolding(rules::specs::Settings::all_soft))]
pub fn all_soft(setting: Setting) -> bool
    ensures { result ≡ all_soft setting }
{
    matches!(setting, Setting::AllSoft)
}

// How many bytes the undo area has: room after room.
#[tactic(auto, using(rules::proofs::Rooms::rooms_most))]
pub fn undo_bytes(setting: Setting) -> usize
    ensures { result ≡ undo_bytes setting }
{
    ROOM_BYTES * rooms(setting)
}
