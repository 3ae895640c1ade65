ghost use Rattle.std.specs.Prelude.{◌≡◌, length};
ghost use Rattle.planner.specs.Stations.{stationed};

use mapfile::map::Map;

mod changes;
mod lists;
mod questions;

// A planner: the stations with their turnouts, by place, the closed links, and whether the plan is solved.
// The tables are of the format's limits, and no map or vector, since planner calls allocate nothing.
// How many stations stand is kept beside them: to count them would take a pass over the places.
#[derive(Clone, Copy)]
pub struct Planner<'a> {
    map: Map<'a>,
    stations: [Option<u32>; 2048],
    standing: usize,
    closed: [bool; 4096],
    solved: bool,
    ghost sized: { (length stations ≡ 2048) × (length closed ≡ 4096) },
    ghost counted: { standing ≡ stationed stations },
}
