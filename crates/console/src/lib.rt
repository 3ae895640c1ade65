// The console: a line to a call, an answer to its text.
#![tactic(auto)]

pub mod answer;
pub mod input;
pub mod line;
pub mod numeral;
pub mod session;
