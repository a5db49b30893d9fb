// The refusals of document 01, by name and number, and the one of a record (document 02, request c).
// specs/Refusals.antt says when each is given; that of a record, records/specs/Writer.antt.
ghost use Rattle.std.specs.Prelude.{◌≡◌, Some};
ghost use Rattle.rules.specs.Refusals.{number_of};
ghost use Rattle.rules.specs.Calls.{answer_number};
ghost use Rattle.rules.specs.Texts.{refusal_text};

use std::error::Error;
use std::fmt;

#[derive(Clone, Copy, Debug, PartialEq, Eq)]
pub enum Refusal {
    BufferSize = 1,
    NotSound = 2,
    NoBlock = 3,
    DataLength = 4,
    PastTheEnd = 5,
    ManyNames = 6,
    NeverIssued = 7,
    NoNumber = 8,
    NoSlot = 9,
    NoRoom = 10,
    InFlight = 11,
    NoneWaits = 12,
    NoneMayGo = 13,
    NoneInFlight = 14,
    FirstNumber = 15,
    NoRecord = 16,
}

impl Refusal {
    // The papers' number; 0 is granted, and no refusal has it. A method and no `From`, as the name says what
    // the number is.
    pub fn number(self) -> u32
        ensures { result ≡ number_of self }
    {
        self as u32
    }
}

// The number of an answer: 0 where the call is granted.
pub fn answer_number<T>(answer: &Result<T, Refusal>) -> u32
    ensures { result ≡ answer_number answer.now }
{
    match answer {
        Ok(_) => 0,
        Err(refusal) => refusal.number(),
    }
}

// The words are those of the board's setting, which has 16 rooms.
impl fmt::Display for Refusal {
    ghost output = { λ r. Some (refusal_text r) };

    fn fmt<W: fmt::Write>(&self, f: &mut fmt::Formatter<W>) -> fmt::Result {
        f.write_str(match self {
            Refusal::BufferSize => "a lent buffer has not its exact size",
            Refusal::NotSound => "the table is not sound",
            Refusal::NoBlock => "block above 63",
            Refusal::DataLength => "data length 0 or above 64",
            Refusal::PastTheEnd => "offset + length above 256",
            Refusal::ManyNames => "more than 8 named numbers",
            Refusal::NeverIssued => "a named or asked number was never issued",
            Refusal::NoNumber => "no number is left, and the change joins no patch",
            Refusal::NoSlot => "no free slot, and the change joins no patch",
            Refusal::NoRoom => "would be soft, and all 16 rooms are taken",
            Refusal::InFlight => "a patch of the block is in flight",
            Refusal::NoneWaits => "no patch of the block waits",
            Refusal::NoneMayGo => "some wait, and none may go",
            Refusal::NoneInFlight => "no patch of the block is in flight",
            Refusal::FirstNumber => "first number 0 or above 1,000,000,000",
            Refusal::NoRecord => "no record",
        })
    }
}

impl Error for Refusal {}
