ghost use Rattle.std.specs.Prelude.{◌≡◌, Some};
ghost use Rattle.console.specs.declared.answer.Denial.TheVariants.{Refused, BadMap};
ghost use Rattle.console.specs.Words.{denied, said};

use mapfile::fault::Fault;
use planner::change::Refusal;
use std::error::Error;
use std::fmt;

// Why a line, or the map file, is denied.
#[derive(Clone, Copy, Debug, PartialEq, Eq)]
pub enum Denial {
    Refused(Refusal),
    Unreadable,
    BadMap(Fault),
}

impl From<Refusal> for Denial {
    ghost from_gives = { λ refusal denial. denial ≡ Refused refusal };

    fn from(value: Refusal) -> Denial {
        Denial::Refused(value)
    }
}

impl From<Fault> for Denial {
    ghost from_gives = { λ fault denial. denial ≡ BadMap fault };

    fn from(value: Fault) -> Denial {
        Denial::BadMap(value)
    }
}

impl fmt::Display for Denial {
    ghost output = { λ denial. Some (denied denial) };

    fn fmt<W: fmt::Write>(&self, f: &mut fmt::Formatter<W>) -> fmt::Result {
        match *self {
            Denial::Refused(refusal) => write!(f, "no {} {refusal}", u8::from(refusal)),
            Denial::Unreadable => write!(f, "no 18 line unreadable"),
            Denial::BadMap(fault) => write!(f, "no {} {fault}", u8::from(fault.breach)),
        }
    }
}

impl Error for Denial {}

// What the console answers to a line, as it is printed.
#[derive(Clone, Copy, Debug, PartialEq, Eq)]
pub struct Answer(pub Result<(), Denial>);

impl fmt::Display for Answer {
    ghost output = { λ answer. Some (said answer.0) };

    fn fmt<W: fmt::Write>(&self, f: &mut fmt::Formatter<W>) -> fmt::Result {
        match self.0 {
            Ok(()) => write!(f, "ok"),
            Err(denial) => write!(f, "{denial}"),
        }
    }
}
