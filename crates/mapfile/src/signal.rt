ghost use Rattle.std.specs.Prelude.{◌<◌, ◌≤◌};

// A traffic signal that repeats every `cycle` tenths of a second: green from `start` on, `length` tenths long.
#[derive(Clone, Copy)]
pub struct Signal {
    pub cycle: u16,
    pub start: u16,
    pub length: u16,
    ghost lawful: { (1 ≤ cycle) × (cycle ≤ 2400) × (start < cycle) × (1 ≤ length) × (length ≤ cycle) },
}
