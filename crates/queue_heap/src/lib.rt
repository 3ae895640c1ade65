// The queue for long rows: a binary heap that also knows at which place each number waits.
#![tactic(auto)]

pub mod heap;
pub mod sift;
