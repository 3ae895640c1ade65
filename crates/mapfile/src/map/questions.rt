ghost use Rattle.std.specs.Prelude.{◌≡◌, ◌+◌, ◌*◌, ◌<◌, ◌≤◌, ◌↔◌, length, Some, None, IsSome, IfSome};
ghost use Rattle.mapfile.specs.Bodies.{shown, body_of, record_at};
ghost use Rattle.mapfile.specs.Codes.{size};
ghost use Rattle.mapfile.specs.Layout.{count};
ghost use Rattle.mapfile.specs.View.{bytes_of, site_of, signal_named, link_of, signal_of};

use super::Map;
use crate::bodies::Bodies;
use crate::body::{Body, BodyKind};
use crate::bytes::{long_at, word_at};
use crate::counts::Counts;
use crate::link::{Link, NO_SIGNAL};
use crate::signal::Signal;

// The contents of a file without records.
static BARE: [u8; 26] = [0; 26];

// A link's signal, by the word that names it. No `From`, as both types are the library's.
fn named_signal(word: u16) -> Option<u16>
    ensures { result ≡ signal_named word }
{
    match word {
        NO_SIGNAL => None,
        known => Some(known),
    }
}

impl<'a> Map<'a> {
    // The empty map: no places, no links, no signals.
    pub fn empty() -> Map<'a>
        ensures { result.counts ≡ record { places = 0; links = 0; signals = 0 } }
    {
        Map {
            file: &BARE,
            counts: Counts {
                places: 0,
                links: 0,
                signals: 0,
            },
        }
    }

    // How many records there are of each kind.
    pub fn counts(&self) -> Counts
        ensures { result ≡ self.now.counts }
    {
        self.counts
    }

    fn bodies(&self) -> Bodies<'a>
        ensures file { result.file.now ≡ bytes_of self.now }
        ensures counts { result.counts ≡ self.now.counts }
    {
        Bodies {
            file: self.file,
            counts: self.counts,
        }
    }

    // The part of the file that holds the records of a kind.
    pub fn part(&self, kind: BodyKind) -> Body<'a>
        ensures { shown result ≡ body_of (bytes_of self.now) self.now.counts kind }
    {
        self.bodies().body(kind)
    }

    // The bytes of a record, if there is one of that number.
    fn record(&self, kind: BodyKind, number: u32) -> Option<&'a [u8]>
        ensures known { IsSome result ↔ (number < count self.now.counts kind) }
        ensures bytes { IfSome result (λ r. r.now ≡ record_at kind (body_of (bytes_of self.now) self.now.counts kind).bytes number) }
        ensures long { IfSome result (λ r. length r.now ≡ size kind) }
    {
        let at = number as usize;
        if at >= self.counts.of(kind) {
            return None;
        }
        let size = kind.size();
        let body = self.bodies().part(kind);
        Some(&body.bytes[size * at..size * at + size])
    }

    // The site of a place.
    pub fn site(&self, number: u32) -> Option<u32>
        ensures known { number < self.now.counts.places → result ≡ Some (site_of self.now number) }
        ensures unknown { self.now.counts.places ≤ number → result ≡ None }
    {
        let bytes = self.record(BodyKind::Places, number)?;
        Some(long_at(bytes, 0))
    }

    // A link.
    pub fn link(&self, number: u32) -> Option<Link>
        ensures known { (h : number < self.now.counts.links) → result ≡ Some (link_of self.now number h) }
        ensures unknown { self.now.counts.links ≤ number → result ≡ None }
    {
        let bytes = self.record(BodyKind::Links, number)?;
        Some(Link {
            from: word_at(bytes, 0),
            to: word_at(bytes, 2),
            run: word_at(bytes, 4),
            class: bytes[6],
            signal: named_signal(word_at(bytes, 8)),
            grade: word_at(bytes, 10),
        })
    }

    // A signal.
    pub fn signal(&self, number: u32) -> Option<Signal>
        ensures known { (h : number < self.now.counts.signals) → result ≡ Some (signal_of self.now number h) }
        ensures unknown { self.now.counts.signals ≤ number → result ≡ None }
    {
        let bytes = self.record(BodyKind::Signals, number)?;
        Some(Signal {
            cycle: word_at(bytes, 0),
            start: word_at(bytes, 2),
            length: word_at(bytes, 4),
        })
    }
}
