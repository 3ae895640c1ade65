ghost use Rattle.network.specs.Drawn.{map_graph, ends_graph, Alike};

use super::{DrawnLink, Ends};
use mapfile::map::Map;

impl Ends {
    // The ends of a map's links, which are open but for those that are closed.
    pub fn of(map: &Map<'_>, closed: &[bool; 4096]) -> Ends
        ensures { Alike (ends_graph result) (map_graph map.now closed.now) }
    {
        let counts = map.counts();
        let mut drawn = [DrawnLink::default(); 4096];
        for (number, is_closed) in closed[..counts.links].iter().enumerate() {
            let link = map.link(number as u32).unwrap();
            drawn[number] = DrawnLink {
                tail: link.from,
                head: link.to,
                is_open: !is_closed,
            };
        }
        Ends {
            places: counts.places,
            links: counts.links,
            drawn,
        }
    }
}
