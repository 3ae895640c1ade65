ghost use Rattle.std.specs.Prelude.{◌≡◌, Some};
ghost use Rattle.division.specs.Refusals.{number, said};

use std::fmt;
use std::fmt::{Display, Formatter, Write};

// The positions from `begin` to `end` of the order list.
#[derive(Clone, Copy, PartialEq, Eq, Debug)]
pub struct Stretch {
    pub begin: u16,
    pub end: u16,
}

// The triggers of a network, counted, and where each structure stands in the order list, by its trigger.
#[derive(Clone, Copy)]
pub struct Division {
    pub count: u32,
    pub stretches: [Stretch; 2048],
}

// A lent list has not one entry for each place.
#[derive(Clone, Copy, PartialEq, Eq, Debug)]
pub struct ListLength;

// The refusal's number among a planner's answers.
impl From<ListLength> for u8 {
    ghost from_gives = { λ _ n. n ≡ number };

    fn from(_refused: ListLength) -> u8 {
        11
    }
}

impl Display for ListLength {
    ghost output = { λ a. Some said };

    fn fmt<W: Write>(&self, f: &mut Formatter<W>) -> fmt::Result {
        write!(f, "list length")
    }
}
