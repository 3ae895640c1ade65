// The plain queue: a row of items in no order, looked through at every call.
#![tactic(auto)]

pub mod row;
