ghost use Rattle.network.specs.Shape.{Sized, Parts, Ends, Tails};

use super::link::OpenLink;

mod parts;

// For each place the open links that leave it: those of place p stand at the positions first[p] to first[p + 1].
// A place is a number, and no type says of which network it is one.
#[derive(Clone, Copy)]
pub struct Network {
    pub places: usize,
    pub first: [u16; 2049],
    pub links: [OpenLink; 4096],
    ghost sized: { Sized places first links },
    ghost parts: { Parts places first },
    ghost ends: { Ends places first links },
    ghost leaves: { Tails places first links },
}
