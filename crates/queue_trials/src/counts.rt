ghost use Rattle.queue_trials.specs.Counts.{stages};
ghost use Rattle.std.proofs.Common.{rules};

use kinds::facts::LinkFacts;
use kinds::kind::Kind;

// A kind whose costs are pairs.
#[derive(Clone, Copy)]
pub struct Stages;

impl Kind for Stages {
    type Cost = (u32, u32);

    type Step = u32;

    ghost meaning = { stages };

    ghost laws = { Prim.search rules };

    fn is_cost(_cost: (u32, u32)) {}

    fn start(&self, turnout: u32) -> (u32, u32) {
        (turnout / 4, turnout % 4)
    }

    fn step(&self, facts: &LinkFacts) -> u32 {
        u32::from(facts.link.run)
    }

    fn after(&self, cost: (u32, u32), step: u32) -> (u32, u32) {
        match cost.0.checked_add(step) {
            Some(sum) => (sum, cost.1),
            None => (u32::MAX, u32::MAX),
        }
    }

    fn less(a: (u32, u32), b: (u32, u32)) -> bool {
        a < b
    }
}
