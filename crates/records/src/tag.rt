// The tag of a record: the byte that it begins with says which call it is of.
ghost use Rattle.std.specs.Prelude.{◌≡◌};
ghost use Rattle.records.specs.Reader.{formed};
ghost use Rattle.records.specs.Inside.{tag_number, IsTagged};

use crate::sizes::{COMPLETE, CREATE, CREATE_BYTES, CUT, MOST_VALUE, OPEN, WRITE};

#[derive(Clone, Copy, Debug, PartialEq, Eq)]
pub enum Tag {
    Open = 1,
    Create = 2,
    Write = 3,
    Complete = 4,
    Cut = 5,
}

// The enum and the numbers in `sizes` stand apart, so that neither file needs the other in a circle; where they
// differ, this is refused.
const _: () = prove!(Tag::Open as u32 == OPEN);

const _: () = prove!(Tag::Create as u32 == CREATE);

const _: () = prove!(Tag::Write as u32 == WRITE);

const _: () = prove!(Tag::Complete as u32 == COMPLETE);

const _: () = prove!(Tag::Cut as u32 == CUT);

// A byte that is no tag.
#[derive(Clone, Copy, Debug, PartialEq, Eq)]
pub struct UnknownTag(pub u8);

impl TryFrom<u8> for Tag {
    type Error = UnknownTag;

    ghost try_from_gives = { IsTagged };

    fn try_from(byte: u8) -> Result<Self, UnknownTag> {
        match byte {
            1 => Ok(Tag::Open),
            2 => Ok(Tag::Create),
            3 => Ok(Tag::Write),
            4 => Ok(Tag::Complete),
            5 => Ok(Tag::Cut),
            _ => Err(UnknownTag(byte)),
        }
    }
}

impl Tag {
    // A method and no `From`, as the name says what the number is.
    pub fn number(self) -> u8
        ensures { result ≡ tag_number self }
    {
        self as u8
    }

    // Whether a value of n bytes may have the tag's form.
    #[tactic(auto, unfolding(crate::specs::Reader::formed))]
    pub fn takes(self, n: usize) -> bool
        ensures { result ≡ formed (tag_number self) n }
    {
        match self {
            Tag::Open => n == 4,
            Tag::Create => CREATE_BYTES <= n && n <= MOST_VALUE,
            Tag::Write | Tag::Complete => n == 1,
            Tag::Cut => n == 8,
        }
    }
}
