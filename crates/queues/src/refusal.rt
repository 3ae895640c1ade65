ghost use Rattle.std.specs.Prelude.{◌≡◌, Some};
ghost use Rattle.queues.specs.Refusals.{number, said};

use std::error::Error;
use std::fmt;
use std::fmt::{Display, Formatter, Write};

// Why an offer is refused.
#[derive(Clone, Copy, PartialEq, Eq, Debug)]
pub enum OfferRefusal {
    BelowFloor = 16,
    Full = 17,
}

// The refusal's number among a planner's answers.
impl From<OfferRefusal> for u8 {
    ghost from_gives = { λ refusal n. n ≡ number refusal };

    fn from(refusal: OfferRefusal) -> u8 {
        refusal as u8
    }
}

impl Display for OfferRefusal {
    ghost output = { λ a. Some (said a) };

    fn fmt<W: Write>(&self, f: &mut Formatter<W>) -> fmt::Result {
        match self {
            OfferRefusal::BelowFloor => write!(f, "cost below floor"),
            OfferRefusal::Full => write!(f, "queue full"),
        }
    }
}

impl Error for OfferRefusal {}
