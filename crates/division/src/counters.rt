ghost use Rattle.network.specs.Packed.{graph_of};
ghost use Rattle.division.specs.Lists.{at};
ghost use Rattle.division.specs.Growing.{Full};

use network::network::Network;

// For each place the number of open links that lead to it.
pub fn count_approaches(net: &Network) -> [u16; 2048]
    ensures { Full (graph_of net.now) (at result) }
{
    let mut approaches = [0u16; 2048];
    for link in net.open_links() {
        approaches[link.head as usize] += 1;
    }
    approaches
}
