ghost use Rattle.std.specs.Prelude.{◌≡◌};
ghost use Rattle.kinds.specs.Meaning.{Meaning};
ghost use Rattle.kinds.specs.Laws.{Laws};

use super::facts::LinkFacts;

// A kind of cost. All values of one kind mean the same.
pub trait Kind {
    type Cost: Copy;

    type Step: Copy;

    ghost meaning: { Meaning Self.Cost Self.Step };

    // Every value of the cost type is a cost: the laws' premise is never narrower than the type.
    fn is_cost(cost: Self::Cost)
        ensures { meaning.is_cost cost };

    // The cost of setting off after a turnout.
    fn start(&self, turnout: u32) -> Self::Cost
        ensures { result ≡ meaning.start turnout };

    // The step of a link.
    fn step(&self, facts: &LinkFacts) -> Self::Step
        ensures { result ≡ meaning.step facts.now };

    // The cost after a step.
    fn after(&self, cost: Self::Cost, step: Self::Step) -> Self::Cost
        ensures { result ≡ meaning.after cost step };

    // Whether `a` is less than `b`: a function that stands alone, without a value of the kind.
    fn less(a: Self::Cost, b: Self::Cost) -> bool
        ensures { result ≡ meaning.less a b };

    ghost laws: { Laws meaning };
}
