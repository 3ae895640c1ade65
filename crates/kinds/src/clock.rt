ghost use Rattle.kinds.specs.Clock.{clock, EachArrives};
ghost use Rattle.kinds.specs.Moments.{clock_laws};

use super::facts::LinkFacts;
use super::kind::Kind;
use super::{delay, green};
use mapfile::signal::Signal;

// The moment at which a place is reached: a link that ends at a signal is over when the signal is green.
#[derive(Clone, Copy)]
pub struct Clock;

#[derive(Clone, Copy)]
pub struct ClockStep {
    pub elapsed: u32,
    pub signal: Option<Signal>,
}

impl Kind for Clock {
    type Cost = u32;

    type Step = ClockStep;

    ghost meaning = { clock };

    ghost laws = { clock_laws };

    fn is_cost(cost: u32) {}

    fn start(&self, turnout: u32) -> u32 {
        turnout
    }

    fn step(&self, facts: &LinkFacts) -> ClockStep {
        ClockStep {
            elapsed: delay::elapsed(&facts.link),
            signal: facts.signal,
        }
    }

    // The sum may be cut first: from the top on, the next green is not below the top.
    fn after(&self, cost: u32, step: ClockStep) -> u32 {
        let arrival = cost.saturating_add(step.elapsed);
        step.signal.map_or(arrival, |signal| {
            u32::try_from(green::next_green(signal, arrival)).unwrap_or(u32::MAX)
        })
    }

    fn less(a: u32, b: u32) -> bool {
        a < b
    }
}

// Every step of the clock ends at the least green moment not before the sum, cut to the top.
pub fn clock_stands()
    ensures { EachArrives }
{}
