// What is judged of a table by itself: whether it is sound; then the block that complete and count name.
ghost use Rattle.ground.specs.Decides.{Decides};
ghost use Rattle.rules.specs.Table.{Sound};
ghost use Rattle.rules.specs.Refusals.{First};
ghost use Rattle.rules.specs.Calls.{answer_number};
ghost use Rattle.cache.specs.Seen.{seen};
ghost use Rattle.cache.specs.Outcome.{block_cases};

use crate::types::Table;
use rules::refusals::Refusal;
use rules::sizes::LAST_BLOCK;

impl Table {
    pub(crate) fn is_sound(&self) -> bool
        ensures { Decides (Sound (seen self.now)) result }
    {
        sound::judge::is_sound(self.setting, self.first, self.next, &self.slots)
    }

    // 2 and 3.
    pub(crate) fn judge_block(&self, block: u32) -> Result<(), Refusal>
        ensures { First (block_cases (seen self.now) block) (answer_number result) }
    {
        if !self.is_sound() {
            return Err(Refusal::NotSound);
        }
        if LAST_BLOCK < block {
            return Err(Refusal::NoBlock);
        }
        Ok(())
    }
}
