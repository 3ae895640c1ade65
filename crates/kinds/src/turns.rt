ghost use Rattle.kinds.specs.Turns.{time_then_turns};
ghost use Rattle.std.proofs.Common.{rules};

use super::delay;
use super::facts::LinkFacts;
use super::kind::Kind;

// The least turn class that counts as a turn.
const TURN: u8 = 2;

// Time first, then turns: of two equally soon the one with fewer turns is cheaper.
#[derive(Clone, Copy)]
pub struct TimeThenTurns;

#[derive(Clone, Copy, PartialEq, Eq, PartialOrd, Ord, Debug)]
pub struct TimeAndTurns {
    pub time: u32,
    pub turns: u32,
}

#[derive(Clone, Copy)]
pub struct TurnStep {
    pub elapsed: u32,
    pub turn: bool,
}

impl Kind for TimeThenTurns {
    type Cost = TimeAndTurns;

    type Step = TurnStep;

    ghost meaning = { time_then_turns };

    ghost laws = { Prim.search rules };

    fn is_cost(cost: TimeAndTurns) {}

    fn start(&self, turnout: u32) -> TimeAndTurns {
        TimeAndTurns {
            time: turnout,
            turns: 0,
        }
    }

    fn step(&self, facts: &LinkFacts) -> TurnStep {
        TurnStep {
            elapsed: delay::elapsed(&facts.link),
            turn: facts.link.class >= TURN,
        }
    }

    // Cut as a whole: were time and turns cut each by itself, a cost that reaches the top with fewer turns could overtake one
    // that stood before it.
    fn after(&self, cost: TimeAndTurns, step: TurnStep) -> TimeAndTurns {
        match cost.time.checked_add(step.elapsed) {
            Some(time) => TimeAndTurns {
                time,
                turns: cost.turns.saturating_add(u32::from(step.turn)),
            },
            None => TimeAndTurns {
                time: u32::MAX,
                turns: u32::MAX,
            },
        }
    }

    fn less(a: TimeAndTurns, b: TimeAndTurns) -> bool {
        a < b
    }
}
