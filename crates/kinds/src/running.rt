ghost use Rattle.kinds.specs.Running.{running_time};
ghost use Rattle.std.proofs.Common.{rules};

use super::delay;
use super::facts::LinkFacts;
use super::kind::Kind;

// Running time: tenths of a second from the call on.
#[derive(Clone, Copy)]
pub struct RunningTime;

impl Kind for RunningTime {
    type Cost = u32;

    type Step = u32;

    ghost meaning = { running_time };

    ghost laws = { Prim.search rules };

    fn is_cost(cost: u32) {}

    fn start(&self, turnout: u32) -> u32 {
        turnout
    }

    fn step(&self, facts: &LinkFacts) -> u32 {
        delay::elapsed(&facts.link)
    }

    fn after(&self, cost: u32, step: u32) -> u32 {
        cost.saturating_add(step)
    }

    fn less(a: u32, b: u32) -> bool {
        a < b
    }
}
