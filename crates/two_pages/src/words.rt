// How what a call takes and answers is spelled on its line. The types are those of the crates below, each
// in one of this program's own, which can say how it is printed.
use rules::refusals::Refusal;
use rules::sizes::SLOTS;
use rules::{AskAnswer, Created, Hold, State};
use std::fmt;

// Bytes as runs of equal ones, each after a space: 8 of 65, 248 of 0.
#[derive(Clone, Copy)]
pub struct Runs<'a>(pub &'a [u8]);

impl fmt::Display for Runs<'_> {
    fn fmt<W: fmt::Write>(&self, f: &mut fmt::Formatter<W>) -> fmt::Result {
        for (i, run) in self.0.chunk_by(|a, b| a == b).enumerate() {
            let comma = if i == 0 { "" } else { "," };
            write!(f, "{comma} {} of {}", run.len(), run[0])?;
        }
        Ok(())
    }
}

// The numbers that a change names, if any.
#[derive(Clone, Copy)]
pub struct After<'a>(pub &'a [u32]);

impl fmt::Display for After<'_> {
    fn fmt<W: fmt::Write>(&self, f: &mut fmt::Formatter<W>) -> fmt::Result {
        if !self.0.is_empty() {
            f.write_str(" after")?;
        }
        for number in self.0 {
            write!(f, " {number}")?;
        }
        Ok(())
    }
}

// A set of slots, lowest first.
#[derive(Clone, Copy)]
pub struct Slots(pub u64);

impl fmt::Display for Slots {
    fn fmt<W: fmt::Write>(&self, f: &mut fmt::Formatter<W>) -> fmt::Result {
        f.write_str("slots")?;
        for i in (0..SLOTS).filter(|&i| masks::has(self.0, i)) {
            write!(f, " {i}")?;
        }
        Ok(())
    }
}

// Hard, or soft with its room.
#[derive(Clone, Copy)]
pub struct Held(pub Hold);

impl fmt::Display for Held {
    fn fmt<W: fmt::Write>(&self, f: &mut fmt::Formatter<W>) -> fmt::Result {
        match self.0 {
            Hold::Hard => f.write_str("hard"),
            Hold::Soft(room) => write!(f, "soft room {room}"),
        }
    }
}

// The state of a slot.
#[derive(Clone, Copy)]
pub struct Stands(pub State);

impl fmt::Display for Stands {
    fn fmt<W: fmt::Write>(&self, f: &mut fmt::Formatter<W>) -> fmt::Result {
        match self.0 {
            State::Free => f.write_str("free"),
            State::Waiting(hold) => write!(f, "waiting {}", Held(hold)),
            State::InFlight(_) => f.write_str("in flight"),
        }
    }
}

// The patch that a granted change became or joined.
#[derive(Clone, Copy)]
pub struct Patch(pub Created);

impl fmt::Display for Patch {
    fn fmt<W: fmt::Write>(&self, f: &mut fmt::Formatter<W>) -> fmt::Result {
        write!(f, "number {} {}", self.0.number, Held(self.0.hold))
    }
}

// How many patches of a block wait.
#[derive(Clone, Copy)]
pub struct Waiting(pub u32);

impl fmt::Display for Waiting {
    fn fmt<W: fmt::Write>(&self, f: &mut fmt::Formatter<W>) -> fmt::Result {
        write!(f, "waiting {}", self.0)
    }
}

// Refused, and why.
#[derive(Clone, Copy)]
pub struct Refused(pub Refusal);

impl fmt::Display for Refused {
    fn fmt<W: fmt::Write>(&self, f: &mut fmt::Formatter<W>) -> fmt::Result {
        write!(f, "refused {} ({})", self.0.number(), self.0)
    }
}

// What a granted call says, or its refusal.
#[derive(Clone, Copy)]
pub struct Answer<T>(pub Result<T, Refusal>);

impl<T: fmt::Display> fmt::Display for Answer<T> {
    fn fmt<W: fmt::Write>(&self, f: &mut fmt::Formatter<W>) -> fmt::Result {
        match &self.0 {
            Ok(said) => write!(f, "{said}"),
            Err(refusal) => write!(f, "{}", Refused(*refusal)),
        }
    }
}

// The answer of the joint call's write, if it was tried.
#[derive(Clone, Copy)]
pub struct Second(pub Option<Result<u64, Refusal>>);

impl fmt::Display for Second {
    fn fmt<W: fmt::Write>(&self, f: &mut fmt::Formatter<W>) -> fmt::Result {
        match self.0 {
            Some(answer) => write!(f, "{}", Answer(answer.map(Slots))),
            None => f.write_str("not tried"),
        }
    }
}

// What ask answers.
#[derive(Clone, Copy)]
pub struct Asked(pub AskAnswer);

impl fmt::Display for Asked {
    fn fmt<W: fmt::Write>(&self, f: &mut fmt::Formatter<W>) -> fmt::Result {
        match self.0 {
            AskAnswer::Waiting => f.write_str("waiting"),
            AskAnswer::InFlight => f.write_str("in flight"),
            AskAnswer::Committed => f.write_str("committed"),
            AskAnswer::Refused(refusal) => write!(f, "{}", Refused(refusal)),
        }
    }
}
