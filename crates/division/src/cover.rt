ghost use Rattle.std.specs.Prelude.{◌≡◌, ℕ, ◌<◌, ◌≢◌, None, All, length};
ghost use Rattle.network.specs.Packed.{graph_of};
ghost use Rattle.network.specs.declared.network.Network.{Network};
ghost use Rattle.division.specs.Lists.{at};
ghost use Rattle.division.specs.Twinned.{Named};
ghost use Rattle.division.specs.Working.{Waiting};
ghost use Rattle.division.specs.Covering.{owner_at, Underway, StillCovered, Overwritten, Owned};

use super::growth::Grower;
use super::leaving::leaving;
use super::lowest::lowest_twin;
use super::walk::postorder;
use super::work::Work;
use network::network::Network;

// The places that growths have covered so far, each with the place whose growth covered it last, its owner; for each owner
// its name, the lowest place with the same structure, and two tables to find it with; and the places to grow from next.
// What holds between two calls is a clause: as a ghost field it would have to be truncated, and could not be opened for
// what follows from it, which holds data as it does.
#[derive(Drop)]
pub struct Covering {
    pub owners: [Option<u16>; 2048],
    pub names: [u16; 2048],
    spots: [u16; 2048],
    far: [u16; 2048],
    work: Work,
}

// Makes v the owner of each member.
fn assign(members: &[u16], v: usize, owners: &mut [Option<u16>; 2048])
    requires place { v < 2048 }
    requires places { (q : ℕ) → q < length members.now → at members.now q < 2048 }
    ensures { Overwritten (at members.now) (length members.now) v (owner_at owners.old) (owner_at owners.new) }
{
    for member in members {
        owners[*member as usize] = Some(v as u16);
    }
}

// Has the places wait that a link from u leads to and that have no owner.
fn meet_heads(net: &Network, u: usize, owners: &[Option<u16>; 2048], work: &mut Work)
    // A place is a number: no type says of which network.
    requires place { u < net.now.places }
    requires waiting { Waiting net.now.places work.old }
    ensures waiting { Waiting net.now.places work.new }
    ensures next { work.new.next ≡ work.old.next }
{
    for link in leaving(net, u) {
        if owners[link.head as usize].is_none() {
            work.meet(link.head);
        }
    }
}

// Has the border places of a growth wait. Members and owners are read while what waits is written, so they are handed in
// apart.
fn meet_border(net: &Network, members: &[u16], owners: &[Option<u16>; 2048], work: &mut Work)
    requires places { (q : ℕ) → q < length members.now → at members.now q < net.now.places }
    requires waiting { Waiting net.now.places work.old }
    ensures waiting { Waiting net.now.places work.new }
    ensures next { work.new.next ≡ work.old.next }
{
    for member in members {
        meet_heads(net, *member as usize, owners, work);
    }
}

impl Covering {
    // No place is covered yet.
    pub fn new() -> Covering
        ensures { (n : Network) → Underway (graph_of n) result }
    {
        Covering {
            owners: [None; 2048],
            names: [0; 2048],
            spots: [0; 2048],
            far: [0; 2048],
            work: Work::new(),
        }
    }

    // Covers v, by a growth from it if no earlier one did.
    fn call(&mut self, grower: &mut Grower<'_>, v: usize)
        requires place { v < grower.old.net.now.places }
        requires underway { Underway (graph_of grower.old.net.now) self.old }
        ensures net { grower.new.net ≡ grower.old.net }
        ensures underway { Underway (graph_of grower.old.net.now) self.new }
        ensures covered { owner_at self.new.owners v ≢ None }
        ensures still { StillCovered (graph_of grower.old.net.now) (owner_at self.old.owners) (owner_at self.new.owners) }
        ensures next { self.new.work.next ≡ self.old.work.next }
    {
        if self.owners[v].is_none() {
            let closed = grower.grow(v);
            let name = lowest_twin(grower, v, closed, &mut self.spots, &mut self.far);
            self.names[v] = name as u16;
            let members = grower.members.as_slice();
            assign(members, v, &mut self.owners);
            meet_border(grower.net, members, &self.owners, &mut self.work);
        }
    }

    // Covers what waits, and what comes to wait meanwhile.
    fn drain(&mut self, grower: &mut Grower<'_>)
        requires { Underway (graph_of grower.old.net.now) self.old }
        ensures net { grower.new.net ≡ grower.old.net }
        ensures underway { Underway (graph_of grower.old.net.now) self.new }
    {
        while let Some(v) = self.work.next() {
            self.call(grower, v as usize);
        }
    }

    // Covers the places without approaches.
    fn call_bare(&mut self, grower: &mut Grower<'_>)
        requires { Underway (graph_of grower.old.net.now) self.old }
        ensures net { grower.new.net ≡ grower.old.net }
        ensures underway { Underway (graph_of grower.old.net.now) self.new }
    {
        // By number: the grower, with its table, is lent to each call.
        for v in 0..grower.net.places {
            if grower.approaches[v] == 0 {
                self.call(grower, v);
            }
        }
    }

    // Covers the places that a walk left, the last first, each followed by the border places that it meets.
    fn call_walked(&mut self, grower: &mut Grower<'_>, left: &[u16])
        requires places { All (λ p. p < grower.old.net.now.places) left.now }
        requires underway { Underway (graph_of grower.old.net.now) self.old }
        ensures net { grower.new.net ≡ grower.old.net }
        ensures underway { Underway (graph_of grower.old.net.now) self.new }
    {
        for v in left.iter().rev() {
            self.call(grower, *v as usize);
            self.drain(grower);
        }
    }

    // Covers every place that is left.
    fn call_all(&mut self, grower: &mut Grower<'_>)
        requires { Underway (graph_of grower.old.net.now) self.old }
        ensures net { grower.new.net ≡ grower.old.net }
        ensures owned { Owned (graph_of grower.old.net.now) (owner_at self.new.owners) }
        ensures named { Named (graph_of grower.old.net.now) (owner_at self.new.owners) (at self.new.names) grower.old.net.now.places }
    {
        for v in 0..grower.net.places {
            self.call(grower, v);
        }
    }
}

// Gives each place an owner, and each owner a name, in a covering that is lent, as an answer would be copied twice. The
// order of the calls only decides the speed: first the places without approaches, then the border places as they are met,
// then what no such place reaches, as a walk leaves it, the last first.
pub fn cover(grower: &mut Grower<'_>, covering: &mut Covering)
    requires { Underway (graph_of grower.old.net.now) covering.old }
    ensures net { grower.new.net ≡ grower.old.net }
    ensures owned { Owned (graph_of grower.old.net.now) (owner_at covering.new.owners) }
    ensures named { Named (graph_of grower.old.net.now) (owner_at covering.new.owners) (at covering.new.names) grower.old.net.now.places }
{
    covering.call_bare(grower);
    covering.drain(grower);
    let walk = postorder(grower.net, &covering.owners);
    covering.call_walked(grower, walk.as_slice());
    covering.call_all(grower);
}
