// How a setting and a write's answer are spelled.
use rules::Setting;
use rules::refusals::Refusal;
use std::fmt;

#[derive(Clone, Copy)]
pub struct Under(pub Setting);

impl fmt::Display for Under {
    fn fmt<W: fmt::Write>(&self, f: &mut fmt::Formatter<W>) -> fmt::Result {
        f.write_str(match self.0 {
            Setting::AllSoft => "every patch soft, no joining",
            Setting::HardRule => "the hard rule, no joining",
            Setting::Board => "the board's setting",
        })
    }
}

#[derive(Clone, Copy)]
pub struct Written(pub Result<u64, Refusal>);

impl fmt::Display for Written {
    fn fmt<W: fmt::Write>(&self, f: &mut fmt::Formatter<W>) -> fmt::Result {
        match self.0 {
            Ok(_) => f.write_str("granted"),
            Err(refusal) => write!(f, "refused {}", refusal.number()),
        }
    }
}
