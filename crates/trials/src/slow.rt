ghost use Rattle.std.specs.Prelude.{◌<◌};

// The division by its definition, for up to 40 places: sets of places are the bits of a number.
use mapfile::map::Map;
use std::array;

// Of each place the places from which an open link leads to it.
pub fn approaches(map: &Map<'_>, closed: &[bool; 4096]) -> [u64; 40] {
    let mut into = [0u64; 40];
    for (number, shut) in (0..4096).zip(closed) {
        if let Some(link) = map.link(number) {
            if !*shut && link.from < 40 && link.to < 40 {
                into[link.to as usize] |= 1u64 << link.from;
            }
        }
    }
    into
}

// One round of growth: the places all of whose approaches are in the set, if they have any.
fn fed(into: &[u64; 40], set: u64) -> u64 {
    let mut more = 0u64;
    for (place, from) in into.iter().enumerate() {
        if *from != 0 && *from & !set == 0 {
            more |= 1u64 << place;
        }
    }
    more
}

// The complete structure of a place.
fn grown(into: &[u64; 40], place: usize) -> u64
    requires { place < 40 }
{
    (0..40).fold(1u64 << place, |set, _| set | fed(into, set))
}

// The complete structure of each place.
pub fn complete(into: &[u64; 40]) -> [u64; 40] {
    array::from_fn(|place| grown(into, place))
}

fn holds(set: u64, place: usize) -> bool {
    place < 64 && (set >> place) & 1 == 1
}

// Whether the place `top`, which holds `own`, holds every place that holds it.
fn is_top(held: &[u64; 40], top: usize, own: u64) -> bool {
    held.iter()
        .enumerate()
        .all(|(place, set)| !holds(*set, top) || holds(own, place))
}

// The trigger of a place: the lowest place that holds it and every place that holds the trigger.
pub fn trigger(held: &[u64; 40], place: usize) -> Option<usize> {
    held.iter()
        .enumerate()
        .position(|(top, own)| holds(*own, place) && is_top(held, top, *own))
}
