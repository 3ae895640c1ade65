// The planner: its map, its stations and closures, and the calls that change them.
#![tactic(auto)]

pub mod change;
pub mod law;
pub mod planner;
