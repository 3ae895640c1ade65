// The open links of a map, packed by the place that they leave.
#![tactic(auto)]

pub mod ends;
pub mod link;
pub mod network;
mod pack;
