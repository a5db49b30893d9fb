// Ask and count: they look and change nothing.
ghost use Rattle.rules.specs.Calls.{Asks, Counts};
ghost use Rattle.cache.specs.Seen.{seen};

use crate::types::Table;
use rules::refusals::Refusal;
use rules::{AskAnswer, State};
use slots::number::is_issued;
use slots::patches::patches_on;
use slots::walks::find;

impl Table {
    // Where the patch with the number is. A number in no slot has committed, maybe before this opening.
    pub fn ask(self, number: u32) -> AskAnswer
        ensures { Asks (seen self) number result }
    {
        if !self.is_sound() {
            return AskAnswer::Refused(Refusal::NotSound);
        }
        if !is_issued(self.next, number) {
            return AskAnswer::Refused(Refusal::NeverIssued);
        }
        let Some(i) = find(&self.slots, number) else {
            return AskAnswer::Committed;
        };
        match self.slots[i].state {
            State::Free => AskAnswer::Committed,
            State::Waiting(_) => AskAnswer::Waiting,
            State::InFlight(_) => AskAnswer::InFlight,
        }
    }

    // How many patches of the block wait.
    pub fn count(self, block: u32) -> Result<u32, Refusal>
        ensures { Counts (seen self) block result }
    {
        if let Err(refusal) = self.judge_block(block) {
            return Err(refusal);
        }
        Ok(patches_on(&self.slots, block).waiting.count_ones())
    }
}
