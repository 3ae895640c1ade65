// The division of a network into maximal structures.
#![tactic(auto)]

pub mod answer;
mod counters;
mod cover;
pub mod divide;
mod growth;
mod layout;
mod leaving;
mod lowest;
mod members;
#[cfg(test)]
mod tests;
mod walk;
mod work;
