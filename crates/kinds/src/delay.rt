ghost use Rattle.std.specs.Prelude.{◌≡◌};
ghost use Rattle.kinds.specs.Delays.{elapsed_on};

use mapfile::link::Link;

// The delay of each turn class, in tenths of a second.
pub const DELAYS: [u8; 16] = [
    0, 0, 10, 15, 20, 25, 30, 40, 45, 50, 60, 70, 80, 90, 100, 120,
];

// The time that a link takes: its run and the delay of its class.
pub fn elapsed(link: &Link) -> u32
    ensures { result ≡ elapsed_on link.now }
{
    u32::from(link.run) + u32::from(DELAYS[usize::from(link.class)])
}
