ghost use Rattle.std.specs.Prelude.{◌≡◌, ◌<◌, length};
ghost use Rattle.mapfile.specs.declared.body.BodyKind.{BodyKind};
ghost use Rattle.mapfile.specs.declared.body.BodyKind.TheVariants.{Places, Links, Signals};
ghost use Rattle.mapfile.specs.Bodies.{key, record_checks};
ghost use Rattle.mapfile.specs.Checks.{answer};
ghost use Rattle.mapfile.specs.Codes.{size};

use super::body::BodyKind;
use super::bytes::{long_at, word_at};
use super::counts::Counts;
use super::fault::{Breach, Fault};
use super::link::{Link, NO_SIGNAL};
use super::signal::Signal;

// A record of one kind, as its bytes lie in a body.
pub trait Record {
    ghost KIND: { BodyKind };

    const KIND: BodyKind;

    // Checks a record whose first byte in the file is `at`, and answers its key; `before` is the key of the record
    // before it, or 0: then the first needs no case.
    fn check(bytes: &[u8], at: usize, counts: Counts, before: u32) -> Result<u32, Fault>
        requires bytes_len { length bytes.now ≡ size KIND }
        requires at_bound { at < 65536 }
        ensures { result ≡ answer (record_checks KIND bytes.now at counts before) (key KIND bytes.now) };
}

// A place: its record is its site alone.
pub struct Place;

impl Record for Place {
    ghost KIND = { Places };

    const KIND: BodyKind = BodyKind::Places;

    fn check(bytes: &[u8], at: usize, _counts: Counts, before: u32) -> Result<u32, Fault> {
        let site = long_at(bytes, 0);
        if site <= before {
            return Err(Breach::Field.at(at));
        }
        Ok(site)
    }
}

impl Record for Link {
    ghost KIND = { Links };

    const KIND: BodyKind = BodyKind::Links;

    fn check(bytes: &[u8], at: usize, counts: Counts, before: u32) -> Result<u32, Fault> {
        let from = u32::from(word_at(bytes, 0));
        if from as usize >= counts.places || from < before {
            return Err(Breach::Field.at(at));
        }
        if word_at(bytes, 2) as usize >= counts.places {
            return Err(Breach::Field.at(at + 2));
        }
        if bytes[6] > 15 {
            return Err(Breach::Field.at(at + 6));
        }
        if bytes[7] != 0 {
            return Err(Breach::Field.at(at + 7));
        }
        let signal = word_at(bytes, 8);
        if signal as usize >= counts.signals && signal != NO_SIGNAL {
            return Err(Breach::Field.at(at + 8));
        }
        if word_at(bytes, 10) > 1000 {
            return Err(Breach::Field.at(at + 10));
        }
        Ok(from)
    }
}

impl Record for Signal {
    ghost KIND = { Signals };

    const KIND: BodyKind = BodyKind::Signals;

    fn check(bytes: &[u8], at: usize, _counts: Counts, _before: u32) -> Result<u32, Fault> {
        let cycle = word_at(bytes, 0);
        if !(1..=2400).contains(&cycle) {
            return Err(Breach::Field.at(at));
        }
        if word_at(bytes, 2) >= cycle {
            return Err(Breach::Field.at(at + 2));
        }
        if !(1..=cycle).contains(&word_at(bytes, 4)) {
            return Err(Breach::Field.at(at + 4));
        }
        if word_at(bytes, 6) != 0 {
            return Err(Breach::Field.at(at + 6));
        }
        Ok(0)
    }
}
