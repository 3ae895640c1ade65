ghost use Rattle.std.specs.Prelude.{◌≡◌};
ghost use Rattle.mapfile.specs.Layout.{count, start, end};
ghost use Rattle.mapfile.specs.Rules.{Limited};

use super::body::BodyKind;

// How many records of each kind a map has.
#[derive(Clone, Copy, Debug, PartialEq, Eq)]
pub struct Counts {
    pub places: usize,
    pub links: usize,
    pub signals: usize,
}

impl Counts {
    // How many records of a kind there are.
    pub(crate) fn of(self, kind: BodyKind) -> usize
        ensures { result ≡ count self kind }
    {
        match kind {
            BodyKind::Places => self.places,
            BodyKind::Links => self.links,
            BodyKind::Signals => self.signals,
        }
    }

    // The byte at which a kind's body starts. Counts are read line by line, so their type does not say their bounds; that of
    // `Bodies` does.
    pub(crate) fn start(self, kind: BodyKind) -> usize
        requires { Limited self }
        ensures { result ≡ start self kind }
    {
        match kind {
            BodyKind::Places => 26,
            BodyKind::Links => 26 + BodyKind::Places.size() * self.places,
            BodyKind::Signals => {
                26 + BodyKind::Places.size() * self.places + BodyKind::Links.size() * self.links
            }
        }
    }

    // The byte at which the last body ends.
    pub(crate) fn end(self) -> usize
        requires { Limited self }
        ensures { result ≡ end self }
    {
        self.start(BodyKind::Signals) + BodyKind::Signals.size() * self.signals
    }
}
