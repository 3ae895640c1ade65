ghost use Rattle.std.specs.Prelude.{◌≡◌, ◌<◌};
ghost use Rattle.network.specs.Leaving.{leaving_of};

use network::link::OpenLink;
use network::network::Network;

// The open links that leave a known place: what `Network::leaving` answers, without its question whether the place is one,
// which each loop over the links of a member would ask again.
pub fn leaving(net: &Network, place: usize) -> &[OpenLink]
    // A place is a number: no type says of which network.
    requires { place < net.now.places }
    ensures { result.now ≡ leaving_of net.now place }
{
    &net.links[net.first[place] as usize..net.first[place + 1] as usize]
}
