ghost use Rattle.std.specs.Prelude.{◌≡◌, Some};
ghost use Rattle.planner.specs.Numbers.{number};
ghost use Rattle.planner.specs.Words.{refusal_words};

use std::error::Error;
use std::fmt;

// A call that changes the planner, with its arguments.
#[derive(Clone, Copy, Debug, PartialEq, Eq)]
pub enum Change {
    Place { place: u32, turnout: u32 },
    Lift { place: u32 },
    Close { link: u32 },
    Reopen { link: u32 },
}

// Why a call is refused. The number of each is the one under which the refusal is known.
#[derive(Clone, Copy, Debug, PartialEq, Eq)]
pub enum Refusal {
    UnknownNumber = 7,
    TurnoutTooLong = 8,
    StationsFull = 9,
    AlreadySo = 10,
}

impl From<Refusal> for u8 {
    ghost from_gives = { λ refusal n. n ≡ number refusal };

    fn from(refusal: Refusal) -> u8 {
        refusal as u8
    }
}

impl fmt::Display for Refusal {
    ghost output = { λ refusal. Some (refusal_words refusal) };

    fn fmt<W: fmt::Write>(&self, f: &mut fmt::Formatter<W>) -> fmt::Result {
        f.write_str(match self {
            Refusal::UnknownNumber => "unknown number",
            Refusal::TurnoutTooLong => "turnout too long",
            Refusal::StationsFull => "stations full",
            Refusal::AlreadySo => "already so",
        })
    }
}

impl Error for Refusal {}
