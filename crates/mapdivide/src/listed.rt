ghost use Rattle.std.specs.Prelude.{IfOk};
ghost use Rattle.mapdivide.specs.Listing.{Lists};
ghost use Rattle.network.specs.Drawn.{map_graph};

use division::divide::divide;
use mapfile::map::Map;
use network::network::Network;
use std::alloc::{AllocError, Global};

// The trigger of each place, and the number of triggers.
#[derive(Drop)]
pub struct Listed {
    pub triggers: Vec<u32>,
    pub count: u32,
}

// Divides the open links of a map.
pub fn divided(heap: Global, map: &Map<'_>, closed: &[bool; 4096]) -> Result<Listed, AllocError>
    ensures { IfOk result (λ l. Lists (map_graph map.now closed.now) l.triggers.items l.count) }
{
    let network = Network::of_map(map, closed);
    let mut triggers = vec![in heap; 0u32; network.places]?;
    let mut order = vec![in heap; 0u32; network.places]?;
    let count = match divide(&network, triggers.as_mut_slice(), order.as_mut_slice()) {
        Ok(division) => division.count,
        Err(_) => unreachable!(),
    };
    Ok(Listed { triggers, count })
}
