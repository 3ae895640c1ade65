// trials: what the crates answer at their limits, and on many generated maps beside a plain second way to find the same.
#![tactic(auto)]

use std::io;

mod divisions;
mod edges;
mod files;
mod random;
mod slow;

fn main(rt: HostRuntime) -> io::Result<()> {
    edges::shapes(&rt)?;
    edges::sizes(&rt)?;
    edges::fields(&rt)?;
    edges::lines(&rt)?;
    divisions::compare(&rt)
}
