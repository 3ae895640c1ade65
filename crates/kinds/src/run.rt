ghost use Rattle.std.specs.Prelude.{◌≡◌};
ghost use Rattle.kinds.specs.Agreement.{SameTime, NeverEarlier, WithoutSignals};
ghost use Rattle.kinds.specs.Runs.{run_cost, NeverFalls, StaysInOrder};

use super::kind::Kind;

// The cost of a list of steps after a turnout.
pub fn cost_of<K: Kind>(kind: &K, turnout: u32, steps: &[K::Step]) -> K::Cost
    ensures { result ≡ run_cost K.Kind.meaning turnout steps.now }
{
    steps
        .iter()
        .fold(kind.start(turnout), |cost, step| kind.after(cost, *step))
}

// Of every kind: the cost of a run never falls as it grows, and of two starts the one not greater stays so over the same steps.
pub fn runs_stand<K: Kind>()
    ensures falls { NeverFalls K.Kind.meaning }
    ensures order { StaysInOrder K.Kind.meaning }
{}

// The time of time then turns is the running time; the clock is never before it, and equals it where no link ends
// at a signal.
pub fn kinds_stand()
    ensures time { SameTime }
    ensures clock { NeverEarlier }
    ensures unsignalled { WithoutSignals }
{}
