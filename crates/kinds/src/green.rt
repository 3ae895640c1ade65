ghost use Rattle.std.specs.Prelude.{◌≡◌};
ghost use Rattle.kinds.specs.Green.{phase_of, GreenIsBegun, NextGreen, next_green};

use mapfile::signal::Signal;

// How far a moment is into the signal's cycle, counted from where its green starts.
fn phase(signal: Signal, moment: u32) -> u64
    ensures { result ≡ phase_of signal moment }
{
    (u64::from(moment) + u64::from(signal.cycle - signal.start)) % u64::from(signal.cycle)
}

// The least green moment not before the given one. It may pass the last `u32`.
pub fn next_green(signal: Signal, moment: u32) -> u64
    ensures least { NextGreen signal moment result }
    ensures value { result ≡ next_green signal moment }
{
    let phase = phase(signal, moment);
    if phase < u64::from(signal.length) {
        u64::from(moment)
    } else {
        u64::from(moment) + (u64::from(signal.cycle) - phase)
    }
}

// A moment is green exactly when a green began less than its length before.
pub fn green_stands()
    ensures { GreenIsBegun }
{}
