ghost use Rattle.std.specs.Prelude.{◌≤◌};

// The word that stands for no signal.
pub(crate) const NO_SIGNAL: u16 = 65535;

// One drivable step from a place to a place: its running time in tenths of a second, its turn class, the signal at its
// end if there is one, and its grade per mille.
#[derive(Clone, Copy)]
pub struct Link {
    pub from: u16,
    pub to: u16,
    pub run: u16,
    pub class: u8,
    pub signal: Option<u16>,
    pub grade: u16,
    ghost classed: { class ≤ 15 },
}
