ghost use Rattle.std.specs.Prelude.{◌≡◌, ℕ, ◌+◌, ◌<◌, MatchBool, length};
ghost use Rattle.network.specs.Packed.{graph_of};
ghost use Rattle.division.specs.Lists.{at};
ghost use Rattle.division.specs.Growing.{Grown, Closed, Alone};
ghost use Rattle.division.specs.Twinned.{Spotted, LinkReach, Reach, LowestTwin, Named};
ghost use Rattle.division.specs.Ringing.{IsRing, ReachesFrom};
ghost use Rattle.division.specs.Covering.{owner_at, Owned};
ghost use Rattle.division.specs.Divided.{TriggerEntries};

use super::cover::{Covering, cover};
use super::growth::Grower;
use super::leaving::leaving;
use network::network::Network;

// The members of u's structure, u first, and the position of each; u is approached, from among them only. That is a
// clause, `IsRing`: as a ghost field it would have to be truncated, and could not be opened for what holds data. So is what
// `far` holds, `ReachesFrom`: that table is no part of a ring.
#[derive(Clone, Copy)]
pub struct Ring<'r> {
    net: &'r Network,
    u: usize,
    members: &'r [u16],
    spots: &'r [u16; 2048],
}

// Writes the position of each member. There is a ring only when they are written.
fn spot(net: &Network, u: usize, members: &[u16], spots: &mut [u16; 2048])
    // A place is a number: no type says of which network.
    requires place { u < net.now.places }
    requires grown { Grown (graph_of net.now) u (at members.now) (length members.now) }
    ensures { Spotted (at members.now) (length members.now) (at spots.new) }
{
    for (q, member) in members.iter().enumerate() {
        spots[*member as usize] = q as u16;
    }
}

impl<'r> Ring<'r> {
    // How far ahead a link from the member at `from` to w leads on a way back to u; 0 if it leads on none. No `Option`: what
    // is wanted of these is the greatest.
    fn link_reach(&self, far: &[u16; 2048], from: usize, w: usize) -> usize
        requires ringed { IsRing self.now }
        requires reach { ReachesFrom self.now far.now (from + 1) }
        requires known { w < self.now.net.now.places }
        requires later { (q : ℕ) → 0 < q → q < length self.now.members.now → at self.now.members.now q ≡ w → from < q }
        ensures { LinkReach (graph_of self.now.net.now) self.now.u (length self.now.members.now) (at self.now.spots.now) w result }
    {
        if w == self.u {
            return self.members.len();
        }
        let q = self.spots[w] as usize;
        if q < self.members.len() && self.members[q] as usize == w && far[q] > 0 {
            q
        } else {
            0
        }
    }

    // How far ahead the links of the member at `from` lead on a way back to u.
    fn reach_of(&self, far: &[u16; 2048], from: usize) -> usize
        requires ringed { IsRing self.now }
        requires reach { ReachesFrom self.now far.now (from + 1) }
        requires within { from < length self.now.members.now }
        ensures { Reach (graph_of self.now.net.now) self.now.u (length self.now.members.now) (at self.now.spots.now) (at self.now.members.now from) result }
    {
        let x = self.members[from] as usize;
        let mut best = 0usize;
        for link in leaving(self.net, x) {
            best = best.max(self.link_reach(far, from, link.head as usize));
        }
        best
    }

    // Writes the reach of each member, the last first.
    fn reaches(&self, far: &mut [u16; 2048])
        requires { IsRing self.now }
        ensures { ReachesFrom self.now far.new 0 }
    {
        // By position: each reach is worked out from the later entries of the list that it joins.
        for q in (0..self.members.len()).rev() {
            far[q] = self.reach_of(far, q) as u16;
        }
    }

    // The lowest of the members that hold u: nothing before such a member leads past it on a way back to u.
    fn lowest_member(&self, far: &[u16; 2048]) -> usize
        requires ringed { IsRing self.now }
        requires reach { ReachesFrom self.now far.now 0 }
        ensures { LowestTwin (graph_of self.now.net.now) self.now.u result }
    {
        let mut low = self.u;
        let mut top = 0;
        // The second list is read by position, as in `write_triggers`.
        for (k, member) in self.members.iter().enumerate() {
            if top <= k {
                low = low.min(*member as usize);
            }
            top = top.max(far[k] as usize);
        }
        low
    }
}

// The lowest place whose complete structure is that of u. The grower grew it last, and said whether u is approached, from
// among its members only. If not, no other place has that structure.
pub fn lowest_twin(
    grower: &Grower<'_>,
    u: usize,
    closed: bool,
    spots: &mut [u16; 2048],
    far: &mut [u16; 2048],
) -> usize
    requires place { u < grower.now.net.now.places }
    requires grown { Grown (graph_of grower.now.net.now) u (at grower.now.members) (length grower.now.members) }
    requires closed { MatchBool closed (Closed (graph_of grower.now.net.now) u) (Alone (graph_of grower.now.net.now) u) }
    ensures { LowestTwin (graph_of grower.now.net.now) u result }
{
    if !closed {
        return u;
    }
    let members = grower.members.as_slice();
    spot(grower.net, u, members, spots);
    let ring = Ring {
        net: grower.net,
        u,
        members,
        spots,
    };
    ring.reaches(far);
    ring.lowest_member(far)
}

// Writes the trigger of each place: the name of its owner.
fn write_triggers(
    net: &Network,
    owners: &[Option<u16>; 2048],
    names: &[u16; 2048],
    triggers: &mut [u32],
)
    requires owned { Owned (graph_of net.now) (owner_at owners.now) }
    requires named { Named (graph_of net.now) (owner_at owners.now) (at names.now) net.now.places }
    requires long { length triggers.old ≡ net.now.places }
    ensures { TriggerEntries (graph_of net.now) triggers.new }
{
    // The owners are read by position: `zip` needs an invariant over two iterators.
    for (w, trigger) in triggers.iter_mut().enumerate() {
        let owner = owners[w].unwrap();
        *trigger = u32::from(names[owner as usize]);
    }
}

// Fills the trigger list.
pub fn name_triggers(grower: &mut Grower<'_>, triggers: &mut [u32])
    requires { length triggers.old ≡ grower.old.net.now.places }
    ensures net { grower.new.net ≡ grower.old.net }
    ensures named { TriggerEntries (graph_of grower.old.net.now) triggers.new }
{
    let mut covering = Covering::new();
    cover(grower, &mut covering);
    write_triggers(grower.net, &covering.owners, &covering.names, triggers);
}
