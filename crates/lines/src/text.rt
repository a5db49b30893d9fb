// The text of a line, as far as it is spelled. Each method promises how far it goes at most, so that its
// caller knows that the next part finds room.
ghost use Rattle.std.specs.Prelude.{◌+◌, ◌≤◌, ◌≡◌, length, ◌++◌};
ghost use Rattle.lines.specs.Decimal.{decimal};
ghost use Rattle.lines.specs.Line.{space, word_text, hold_text, more_text};
ghost use Rattle.lines.specs.Laid.{Adds};

use crate::types::{More, Word};
use rules::Hold;

// A lent buffer, and how many bytes at its start are text.
#[derive(Drop)]
pub(crate) struct Text<'a> {
    pub(crate) buffer: &'a mut [u8],
    pub(crate) len: usize,
}

impl Text<'_> {
    pub(crate) fn put(&mut self, more: &[u8])
        requires { self.old.len + length more.now ≤ length self.old.buffer.now }
        ensures { Adds more.now self.old self.new }
    {
        spans::lay(self.buffer, self.len, more);
        self.len += more.len();
    }

    // A number after a space.
    #[tactic(auto, using(crate::proofs::Digits::at_most_10))]
    fn put_count(&mut self, n: u32)
        requires { self.old.len + 11 ≤ length self.old.buffer.now }
        ensures adds { Adds (space ++ decimal n) self.old self.new }
        ensures upper_bound { self.new.len ≤ self.old.len + 11 }
    {
        self.put(b" ");
        self.put_number(u64::from(n));
    }

    // What a granted write or create adds, if anything.
    pub(crate) fn put_more(&mut self, more: More)
        requires { self.old.len + 16 ≤ length self.old.buffer.now }
        ensures adds { Adds (more_text more) self.old self.new }
        ensures upper_bound { self.new.len ≤ self.old.len + 16 }
    {
        match more {
            More::Nothing => {}
            More::Patches(n) => self.put_count(n),
            More::Patch(n, hold) => {
                self.put_count(n);
                self.put(hold_text(hold));
            }
        }
    }
}

// The word between two spaces.
#[tactic(auto, unfolding(crate::specs::Line::word_text))]
pub(crate) fn word_text(word: Word) -> &'static [u8]
    ensures text { result.now ≡ space ++ word_text word ++ space }
    ensures upper_bound { length result.now ≤ 10 }
{
    match word {
        Word::Open => b" open ",
        Word::Create => b" create ",
        Word::Write => b" write ",
        Word::Complete => b" complete ",
        Word::Cut => b" cut ",
        Word::Bad => b" bad ",
    }
}

// Hard or soft, after a space.
#[tactic(auto, unfolding(crate::specs::Line::hold_text))]
fn hold_text(hold: Hold) -> &'static [u8]
    ensures text { result.now ≡ space ++ hold_text hold }
    ensures upper_bound { length result.now ≤ 5 }
{
    match hold {
        Hold::Hard => b" hard",
        Hold::Soft(_) => b" soft",
    }
}
