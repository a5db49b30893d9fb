// Write: the largest set of the block's waiting patches that may go, goes.
ghost use Rattle.rules.specs.Calls.{Writes};
ghost use Rattle.cache.specs.Seen.{seen, writing};
ghost use Rattle.cache.specs.Outcome.{answered};

use crate::types::{Answered, Table};
use early::write::ready_to_write;
use rules::refusals::Refusal;
use send::hand_out::hand_out;
use send::largest::largest;
use send::sent::sent;
use slots::patches::patches_on;

impl Table {
    // The next table, and the set of slots sent.
    fn send(
        &self,
        image: &[u8],
        undo: &[u8],
        handed: &mut [u8],
        block: u32,
    ) -> Result<(Table, u64), Refusal>
        ensures { Writes (seen self.now) image.now undo.now handed.old block
            (writing (answered self.now result) image.now undo.now handed.new) }
    {
        let sound = self.is_sound();
        let on = patches_on(&self.slots, block);
        ready_to_write(self.setting, image, undo, handed, block, sound, on)?;
        let set = largest(&self.slots, on);
        if set == 0 {
            return Err(Refusal::NoneMayGo);
        }
        hand_out(
            handed,
            image,
            undo,
            block,
            self.next,
            &self.slots,
            on.waiting,
            set,
        );
        Ok((self.with_slots(sent(&self.slots, set)), set))
    }

    pub fn write(self, image: &[u8], undo: &[u8], handed: &mut [u8], block: u32) -> Answered<u64>
        ensures { Writes (seen self) image.now undo.now handed.old block
            (writing result image.now undo.now handed.new) }
    {
        let outcome = self.send(image, undo, handed, block);
        self.answered(outcome)
    }
}
