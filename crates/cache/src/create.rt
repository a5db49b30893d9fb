// Create: a change joins a waiting patch of its block, or becomes a patch in the lowest free slot, with
// the number next. Image and undo area are lent one by one, here, in write and below: create writes both and
// write only reads them beside a block that it writes, so they would need two structs.
ghost use Rattle.std.specs.Prelude.{◌+◌, ◌≤◌, ◌<◌, length, ◌≡◌};
ghost use Rattle.rules.specs.Sizes.{slots, most_bytes};
ghost use Rattle.rules.specs.Create.{change_in, place, patch};
ghost use Rattle.rules.specs.Calls.{Creates};
ghost use Rattle.cache.specs.Seen.{seen, creation};
ghost use Rattle.cache.specs.Outcome.{answered};
ghost use Rattle.cache.specs.Taking.{Joined, Taking, kept_at, with_patch};

use crate::types::{Answered, Table};
use accept::accepted::{accepted, joined};
use accept::entry::entry_for;
use accept::types::Entry;
use befores::{added, befores};
use early::create::ready_to_create;
use rules::refusals::Refusal;
use rules::sizes::{BLOCK_BYTES, LAST_NEXT, ROOM_BYTES, SLOTS};
use rules::{Change, Created, Hold, Slot, State};
use sound::judge::judge;

// The old bytes of a soft patch's range, n from place `at`, into the first bytes of its room.
fn keep(undo: &mut [u8], image: &[u8], hold: Hold, at: usize, n: usize)
    ensures { undo.new ≡ kept_at undo.old image.now at n hold }
{
    if let Hold::Soft(r) = hold {
        spans::copy(undo, (r as usize) * ROOM_BYTES, image, at, n);
    }
}

// Where the range of a change starts in the working image.
fn place(change: &Change) -> usize
    ensures { result ≡ place (change_in change.now) }
{
    BLOCK_BYTES * (change.block as usize) + (change.offset as usize)
}

impl Table {
    // The new patch: the number next, its block and range, waiting, with its befores.
    fn patch(&self, change: &Change, hold: Hold) -> Slot
        requires { length change.now.bytes.now ≤ most_bytes }
        ensures { result ≡ patch (seen self.now) (change_in change.now) hold }
    {
        Slot {
            state: State::Waiting(hold),
            number: self.next,
            block: change.block,
            offset: change.offset,
            len: change.bytes.len() as u32,
            befores: befores(&self.slots, change),
        }
    }

    // The table with the patch in slot j, and next grown by one.
    fn with_patch(&self, patch: Slot, j: usize, hold: Hold) -> Table
        requires { self.now.next + 1 < 4294967296 }
        ensures { seen result ≡ with_patch (seen self.now) patch j hold }
    {
        Table {
            next: self.next + 1,
            slots: accepted(&self.slots, patch, j, hold),
            ..*self
        }
    }

    // The change joins the patch of slot j, and that one's number is the answer. The undo area is not
    // asked for: nothing is kept.
    fn join(&self, image: &mut [u8], change: &Change, j: usize) -> (Table, Created)
        requires { j < slots }
        ensures { Joined (seen self.now) image.old (change_in change.now) j result image.new }
    {
        spans::lay(image, place(change), change.bytes);
        let more = added(&self.slots, change);
        let next = self.with_slots(joined(&self.slots, change.block, more, j));
        let number = self.slots[j].number;
        (
            next,
            Created {
                number,
                hold: Hold::Hard,
            },
        )
    }

    // The change takes a slot outside the set `used`, hard or soft as it is: 8, 9 and 10 are judged, then
    // the patch is made.
    fn take(
        &self,
        image: &mut [u8],
        undo: &mut [u8],
        change: &Change,
        used: u64,
        hold: Option<Hold>,
    ) -> Result<(Table, Created), Refusal>
        requires { Taking (seen self.now) image.old undo.old (change_in change.now) used hold }
        ensures { Creates (seen self.now) image.old undo.old (change_in change.now)
            (creation (answered self.now result) image.new undo.new) }
    {
        if self.next == LAST_NEXT {
            return Err(Refusal::NoNumber);
        }
        let j = masks::lowest_outside(used, SLOTS).ok_or(Refusal::NoSlot)?;
        let hold = hold.ok_or(Refusal::NoRoom)?;
        let patch = self.patch(change, hold);
        let at = place(change);
        keep(undo, image, hold, at, change.bytes.len());
        spans::lay(image, at, change.bytes);
        let number = self.next;
        Ok((self.with_patch(patch, j, hold), Created { number, hold }))
    }

    // The next table, and the patch that the change became or joined.
    fn accept(
        &self,
        image: &mut [u8],
        undo: &mut [u8],
        change: &Change,
    ) -> Result<(Table, Created), Refusal>
        ensures { Creates (seen self.now) image.old undo.old (change_in change.now)
            (creation (answered self.now result) image.new undo.new) }
    {
        let verdict = judge(self.setting, self.first, self.next, &self.slots);
        let in_use = ready_to_create(self.setting, self.next, image, undo, change, verdict)?;
        match entry_for(self.setting, &self.slots, change.block, in_use.rooms) {
            Entry::Joins(j) => Ok(self.join(image, change, j)),
            Entry::Own(hold) => self.take(image, undo, change, in_use.used, hold),
        }
    }

    pub fn create(self, image: &mut [u8], undo: &mut [u8], change: &Change) -> Answered<Created>
        ensures { Creates (seen self) image.old undo.old (change_in change.now)
            (creation result image.new undo.new) }
    {
        let outcome = self.accept(image, undo, change);
        self.answered(outcome)
    }
}
