//! The theory of the search: labels, runs, least costs, stages, what sweeps keep, and arriving links, for every kind of cost. Its definitions
//! stand in `specs/`; each function's contract is a theorem.
#![tactic(auto)]

ghost use Rattle.runs.specs.Theorems.{RunsAreDriven, SearchStages, SearchSolves, BalancedLeast, BalanceTested};
ghost use Rattle.runs.specs.Worked.{WorkedSheet};

use kinds::kind::Kind;
use kinds::running::RunningTime;

pub mod label;

/// The links of a run, in the order of driving, lead from a station on, at the cost of their steps after its turnout.
pub fn runs_stand<K: Kind>()
    ensures { RunsAreDriven K.Kind.meaning }
{}

/// After the first sweep and after each take each label holds the least cost of the runs to its place that leave no trigger but taken ones.
pub fn stages_stand<K: Kind>()
    ensures { SearchStages K.Kind.meaning }
{}

/// At the end of a search each label holds the least cost of all runs to its place, each walk back is a run of that cost, and the taken triggers
/// are those that runs reach.
pub fn search_stands<K: Kind>()
    ensures { SearchSolves K.Kind.meaning }
{}

/// A sheet whose stations and links are met, and whose reached labels runs attain, holds the least costs of all runs.
pub fn balanced_stands<K: Kind>()
    ensures { BalancedLeast K.Kind.meaning }
{}

/// A sheet that passes the tests holds the least costs of all runs, and each walk back is a run of that cost.
pub fn tested_stands<K: Kind>()
    ensures { BalanceTested K.Kind.meaning }
{}

/// The worked example.
pub fn example_stands()
    ensures { WorkedSheet }
{
    tested_stands::<RunningTime>();
}
