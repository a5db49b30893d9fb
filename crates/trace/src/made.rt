// What a record's call leaves, put together: what every call of a record ends with.
ghost use Rattle.std.specs.Prelude.{◌≡◌};
ghost use Rattle.rules.specs.Calls.{answer_number};
ghost use Rattle.trace.specs.Inside.{told};

use crate::types::{Kept, Made};
use lines::types::{Line, More, Word};
use rules::refusals::{self, Refusal};
use tally::plus;

// The number of an answer on its line: 0 where the call is granted.
pub(crate) fn answer_number<T>(answer: &Result<T, Refusal>) -> u64
    ensures { result ≡ answer_number answer.now }
{
    u64::from(refusals::answer_number(answer))
}

// The next place, and the line of the place that is past.
pub(crate) fn told(kept: Kept, word: Word, number: u64, more: More) -> Made
    ensures { result ≡ told kept word number more }
{
    Made {
        kept: Kept {
            place: plus(kept.place, 1),
            ..kept
        },
        line: Line {
            place: kept.place,
            word,
            number,
            more,
        },
    }
}
