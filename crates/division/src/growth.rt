ghost use Rattle.std.specs.Prelude.{◌≡◌, ℕ, ◌+◌, ◌<◌, ◌≤◌, MatchBool, length};
ghost use Rattle.network.specs.Packed.{graph_of};
ghost use Rattle.division.specs.Lists.{at};
ghost use Rattle.division.specs.Growing.{Before, Pending, Growing, Grown, Full, PutBack, Closed, Alone};

use super::counters::count_approaches;
use super::leaving::leaving;
use super::members::Members;
use network::network::Network;

// Grows structures in a network. Between two growths each place has as many links left to follow as lead to it. The
// tables stay two, and no table of pairs: what is counted down is lent alone, and so the other cannot change. Each call that
// changes the grower says that the network is the same, which no type can. The members stand before the tables, their number
// before them, so that all of these lie off the tables of a network that is whole pages away: else an entry read there waits
// for one written here, on a processor that first compares addresses by their place in a page.
#[derive(Drop)]
pub struct Grower<'n> {
    pub net: &'n Network,
    pub members: Members,
    pub approaches: [u16; 2048],
    pub left: [u16; 2048],
    ghost counted: { Full (graph_of net.now) (at approaches) },
    ghost untouched: { Full (graph_of net.now) (at left) },
}

// The functions that a growth consists of take its tables one by one: meanwhile they are not what the type says.

// Follows the links that leave member k; a place other than v to which no link is left joins.
fn follow(net: &Network, v: usize, k: usize, left: &mut [u16; 2048], members: &mut Members)
    requires before { k < length members.old }
    requires growing { Growing (graph_of net.now) v (at members.old) (at left.old) (length members.old) (Before (graph_of net.now) (at members.old) k) }
    ensures longer { length members.old ≤ length members.new }
    ensures growing { Growing (graph_of net.now) v (at members.new) (at left.new) (length members.new) (Before (graph_of net.now) (at members.new) (k + 1)) }
{
    let u = members.as_slice()[k] as usize;
    for link in leaving(net, u) {
        let w = link.head as usize;
        left[w] -= 1;
        if left[w] == 0 && w != v {
            members.push(link.head);
        }
    }
}

// All members of v's structure, v first; every link that leaves one is counted down.
fn spread(net: &Network, v: usize, left: &mut [u16; 2048], members: &mut Members)
    requires place { v < net.now.places }
    requires full { Full (graph_of net.now) (at left.old) }
    ensures { Growing (graph_of net.now) v (at members.new) (at left.new) (length members.new) (Before (graph_of net.now) (at members.new) (length members.new)) }
{
    members.clear();
    members.push(v as u16);
    // No `for`: the list grows while it is gone through.
    let mut k = 0;
    while k < members.len() {
        follow(net, v, k, left, members);
        k += 1;
    }
}

// Puts the counters of the places back that u's links lead to.
fn put_back_heads(net: &Network, u: usize, full: &[u16; 2048], left: &mut [u16; 2048])
    // A place is a number: no type says of which network.
    requires { u < net.now.places }
    ensures { PutBack (graph_of net.now) u (at full.now) (at left.old) (at left.new) }
{
    for link in leaving(net, u) {
        let w = link.head as usize;
        left[w] = full[w];
    }
}

// Puts every counter back that a growth counted down. What else members are is said where they grew, by `Grown`; here and
// where owners are written it is enough that they are places.
fn put_back(net: &Network, members: &[u16], full: &[u16; 2048], left: &mut [u16; 2048])
    requires places { (q : ℕ) → q < length members.now → at members.now q < net.now.places }
    requires full { Full (graph_of net.now) (at full.now) }
    requires pending { Pending (graph_of net.now) (at left.old) (Before (graph_of net.now) (at members.now) (length members.now)) }
    ensures { Full (graph_of net.now) (at left.new) }
{
    for member in members {
        put_back_heads(net, *member as usize, full, left);
    }
}

impl<'n> Grower<'n> {
    // No structure is grown yet.
    pub fn new(net: &'n Network) -> Grower<'n>
        ensures { result.net ≡ net.entry }
    {
        let approaches = count_approaches(net);
        Grower {
            net,
            approaches,
            left: approaches,
            members: Members::new(),
        }
    }

    // Grows the complete structure of v into the members. Says whether v is approached, from among them only.
    pub fn grow(&mut self, v: usize) -> bool
        requires { v < self.old.net.now.places }
        ensures net { self.new.net ≡ self.old.net }
        ensures grown { Grown (graph_of self.old.net.now) v (at self.new.members) (length self.new.members) }
        ensures closed { MatchBool result (Closed (graph_of self.old.net.now) v) (Alone (graph_of self.old.net.now) v) }
    {
        spread(self.net, v, &mut self.left, &mut self.members);
        let closed = self.approaches[v] > 0 && self.left[v] == 0;
        put_back(
            self.net,
            self.members.as_slice(),
            &self.approaches,
            &mut self.left,
        );
        closed
    }
}
