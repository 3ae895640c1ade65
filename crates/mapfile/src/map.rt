ghost use Rattle.mapfile.specs.Rules.{Sized, EachPlace, EachLink, EachSign, EachSignal, EachSpare};

use super::counts::Counts;

mod questions;
mod reading;

// A movement map: a view over the bytes of a file whose records keep the format's rules.
#[derive(Clone, Copy)]
pub struct Map<'a> {
    file: &'a [u8],
    counts: Counts,
    ghost sized: { Sized file.now counts },
    ghost each_place: { EachPlace file.now counts },
    ghost each_link: { EachLink file.now counts },
    ghost each_sign: { EachSign file.now counts },
    ghost each_signal: { EachSignal file.now counts },
    ghost each_spare: { EachSpare file.now counts },
}
