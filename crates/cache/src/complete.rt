// Complete: the block's in-flight patches commit.
ghost use Rattle.rules.specs.Calls.{Completes};
ghost use Rattle.cache.specs.Seen.{seen, completion};
ghost use Rattle.cache.specs.Outcome.{answered};

use crate::types::{Answered, Table};
use rules::refusals::Refusal;
use settle::complete::completed;
use slots::patches::patches_on;

impl Table {
    fn commit(&self, block: u32) -> Result<(Table, ()), Refusal>
        ensures { Completes (seen self.now) block (completion (answered self.now result)) }
    {
        self.judge_block(block)?;
        let on = patches_on(&self.slots, block);
        let landed = on.in_flight;
        if landed == 0 {
            return Err(Refusal::NoneInFlight);
        }
        Ok((self.with_slots(completed(&self.slots, landed)), ()))
    }

    pub fn complete(self, block: u32) -> Answered<()>
        ensures { Completes (seen self) block (completion result) }
    {
        let outcome = self.commit(block);
        self.answered(outcome)
    }
}
