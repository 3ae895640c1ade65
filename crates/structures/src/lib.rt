//! The theory of the division of a road map into structures. Its definitions stand in `specs/`; each function's contract is a theorem.
#![tactic(auto)]

ghost use Rattle.structures.specs.Theorems.{
  CompleteStructures,
  MaximalStructures,
  ComputedTriggers,
  FewestTriggers,
  TurnedWithin,
};
ghost use Rattle.structures.specs.Worked.{WorkedExamples};

/// Every place has a complete structure, and only one.
pub fn complete_stands()
    ensures { CompleteStructures }
{}

/// The maximal structures are disjoint, cover the map and have one trigger each.
pub fn maximal_stands()
    ensures { MaximalStructures }
{}

/// The computed structures, triggers and count are those of the definition.
pub fn computed_stands()
    ensures { ComputedTriggers }
{}

/// No rival division has fewer entries than there are triggers.
pub fn fewest_stands()
    ensures { FewestTriggers }
{}

/// Turning every link round leaves a map whose links lead from a place to a place.
pub fn turned_stands()
    ensures { TurnedWithin }
{}

/// The worked examples.
pub fn example_stands()
    ensures { WorkedExamples }
{}
