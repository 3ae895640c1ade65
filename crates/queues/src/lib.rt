// Queues by their meaning: numbers that wait, each with a cost, and leave in rising order of cost.
#![tactic(auto)]

pub mod cells;
pub mod drain;
pub mod entry;
pub mod law;
pub mod lent;
pub mod queue;
pub mod refusal;
