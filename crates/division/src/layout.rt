ghost use Rattle.std.specs.Prelude.{◌≡◌, ◌+◌, ◌<◌, ◌≤◌, length};
ghost use Rattle.network.specs.Packed.{graph_of};
ghost use Rattle.structures.specs.Computed.{triggers as triggers_of};
ghost use Rattle.division.specs.Lists.{at};
ghost use Rattle.division.specs.Laying.{Stretched};
ghost use Rattle.division.specs.Divided.{TriggerEntries, OrderEntries};

use super::answer::Stretch;
use super::growth::Grower;
use network::network::Network;

// Writes the members but the first, from a position of the order list on. By position: going over both lists at once
// needs an invariant over two iterators, which is longer than the loop.
fn write_stretch(members: &[u16], order: &mut [u32], from: usize)
    requires some { 0 < length members.now }
    requires room { from + length members.now ≤ length order.old + 1 }
    ensures { Stretched (at members.now) (length members.now) from (at order.old) (at order.new) }
{
    for (q, member) in members[1..].iter().enumerate() {
        order[from + q] = u32::from(*member);
    }
}

// The number of places that are their own trigger. The list is a caller's: its length was looked at once, in `divide`.
pub fn count_triggers(net: &Network, triggers: &[u32]) -> u32
    requires long { length triggers.now ≡ net.now.places }
    requires named { TriggerEntries (graph_of net.now) triggers.now }
    ensures { result ≡ triggers_of (graph_of net.now) }
{
    let mut count = 0;
    for (t, trigger) in triggers.iter().enumerate() {
        if *trigger as usize == t {
            count += 1;
        }
    }
    count
}

// Writes the order list, one structure after the other, and says where each stands.
pub fn lay_out(grower: &mut Grower<'_>, triggers: &[u32], order: &mut [u32]) -> [Stretch; 2048]
    requires long { length triggers.now ≡ grower.old.net.now.places }
    requires named { TriggerEntries (graph_of grower.old.net.now) triggers.now }
    requires room { length order.old ≡ grower.old.net.now.places }
    ensures net { grower.new.net ≡ grower.old.net }
    ensures order { OrderEntries (graph_of grower.old.net.now) order.old order.new result }
{
    let mut stretches = [Stretch { begin: 0, end: 0 }; 2048];
    let mut next = 0;
    for (t, trigger) in triggers.iter().enumerate() {
        if *trigger as usize == t {
            let _ = grower.grow(t);
            let members = grower.members.as_slice();
            write_stretch(members, order, next);
            let end = next + (members.len() - 1);
            stretches[t] = Stretch {
                begin: next as u16,
                end: end as u16,
            };
            next = end;
        }
    }
    stretches
}
