// The movement map: its records, its file and the view that reads them.
#![tactic(auto)]

mod bodies;
pub mod body;
mod bytes;
mod contents;
pub mod counts;
pub mod fault;
pub mod link;
pub mod map;
mod reader;
mod records;
pub mod signal;
