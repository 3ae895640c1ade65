ghost use Rattle.std.specs.Prelude.{◌≡◌, false};
ghost use Rattle.std.specs.Range.{range_inclusive_start, range_inclusive_end, range_inclusive_exhausted};
ghost use Rattle.mapfile.specs.Codes.{code, least, most, line, size};

use std::ops::RangeInclusive;

// The three kinds of records, in the order of their bodies in the file.
#[derive(Clone, Copy, Debug, PartialEq, Eq)]
pub enum BodyKind {
    Places = 1,
    Links = 2,
    Signals = 3,
}

// The number of a kind in the contents.
impl From<BodyKind> for u8 {
    ghost from_gives = { λ kind n. n ≡ code kind };

    fn from(kind: BodyKind) -> u8 {
        kind as u8
    }
}

impl BodyKind {
    // The counts of records that there may be.
    pub(crate) fn limits(self) -> RangeInclusive<u16>
        ensures least { range_inclusive_start result ≡ least self }
        ensures most { range_inclusive_end result ≡ most self }
        ensures whole { range_inclusive_exhausted result ≡ false }
    {
        match self {
            BodyKind::Places => 1..=2048,
            BodyKind::Links => 0..=4096,
            BodyKind::Signals => 0..=256,
        }
    }

    // The first byte of the kind's line in the contents.
    pub(crate) fn line(self) -> usize
        ensures { result ≡ line self }
    {
        2 + 8 * (self as usize - 1)
    }

    // The bytes of one record.
    pub(crate) fn size(self) -> usize
        ensures { result ≡ size self }
    {
        match self {
            BodyKind::Places => 4,
            BodyKind::Links => 12,
            BodyKind::Signals => 8,
        }
    }
}

// A part of the file, with the byte at which it starts there.
#[derive(Clone, Copy)]
pub struct Part<'a> {
    pub first: usize,
    pub bytes: &'a [u8],
}

// A body: the part of the file that holds all records of one kind. An enum, since its cases are what a map hands out.
#[derive(Clone, Copy)]
pub enum Body<'a> {
    Places(Part<'a>),
    Links(Part<'a>),
    Signals(Part<'a>),
}
