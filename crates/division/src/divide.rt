ghost use Rattle.network.specs.Packed.{graph_of};
ghost use Rattle.division.specs.Divided.{Divided};

use super::answer::{Division, ListLength};
use super::growth::Grower;
use super::layout::{count_triggers, lay_out};
use super::lowest::name_triggers;
use network::network::Network;

// Divides a network into its maximal structures: fills the list of each place's trigger and the order list. A list that
// has not an entry for each place is refused, and then nothing is written.
pub fn divide(
    net: &Network,
    triggers: &mut [u32],
    order: &mut [u32],
) -> Result<Division, ListLength>
    ensures { Divided (graph_of net.now) (triggers.old, order.old) (triggers.new, order.new) result }
{
    if triggers.len() != net.places || order.len() != net.places {
        return Err(ListLength);
    }
    let mut grower = Grower::new(net);
    name_triggers(&mut grower, triggers);
    Ok(Division {
        count: count_triggers(net, triggers),
        stretches: lay_out(&mut grower, triggers, order),
    })
}
