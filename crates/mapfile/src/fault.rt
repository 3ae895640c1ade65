ghost use Rattle.std.specs.Prelude.{◌≡◌, Some};
ghost use Rattle.mapfile.specs.Numbers.{number, layer_of, fault};
ghost use Rattle.mapfile.specs.Words.{layer_words, fault_words};

use std::error::Error;
use std::fmt;

// Where in the file a rule is broken: in the contents, in the bodies' sizes, or in a record.
#[derive(Clone, Copy, Debug, PartialEq, Eq)]
pub enum Layer {
    Contents,
    Body,
    Record,
}

impl fmt::Display for Layer {
    ghost output = { λ layer. Some (layer_words layer) };

    fn fmt<W: fmt::Write>(&self, f: &mut fmt::Formatter<W>) -> fmt::Result {
        f.write_str(match self {
            Layer::Contents => "map contents at",
            Layer::Body => "map body at",
            Layer::Record => "map record at",
        })
    }
}

// Which rule of the format is broken. The number of each is the one under which the refusal is known.
#[derive(Clone, Copy, Debug, PartialEq, Eq)]
pub enum Breach {
    Short = 1,
    Edition = 2,
    Contents = 3,
    Count = 4,
    Length = 5,
    Field = 6,
}

impl Breach {
    fn layer(self) -> Layer
        ensures { result ≡ layer_of self }
    {
        match self {
            Breach::Short | Breach::Edition | Breach::Contents | Breach::Count => Layer::Contents,
            Breach::Length => Layer::Body,
            Breach::Field => Layer::Record,
        }
    }

    // The fault of a rule that is broken at byte `byte`.
    pub(crate) fn at(self, byte: usize) -> Fault
        ensures { result ≡ fault self byte }
    {
        Fault {
            layer: self.layer(),
            breach: self,
            byte,
        }
    }
}

impl From<Breach> for u8 {
    ghost from_gives = { λ breach n. n ≡ number breach };

    fn from(breach: Breach) -> u8 {
        breach as u8
    }
}

// Why a file is refused: the first broken rule in reading order, and the first byte of the broken field.
#[derive(Clone, Copy, Debug, PartialEq, Eq)]
pub struct Fault {
    pub layer: Layer,
    pub breach: Breach,
    pub byte: usize,
}

impl fmt::Display for Fault {
    ghost output = { λ fault. Some (fault_words fault) };

    fn fmt<W: fmt::Write>(&self, f: &mut fmt::Formatter<W>) -> fmt::Result {
        write!(f, "{} {}", self.layer, self.byte)
    }
}

impl Error for Fault {}
