// The division beside the definition, on generated maps of up to 40 places.
use super::files::{begun, plain_link};
use super::random::Random;
use super::slow::{approaches, complete, trigger};
use division::divide::divide;
use mapfile::map::Map;
use network::network::Network;
use std::alloc::{AllocError, Global};
use std::io;

// A map with so many places, from each of which so many links lead to places at random.
fn generated(
    heap: Global,
    random: &mut Random,
    places: u16,
    each: u16,
) -> Result<Vec<u8>, AllocError> {
    let mut file = begun(heap, places, places.saturating_mul(each), 0)?;
    for from in 0..places {
        for _ in 0..each {
            let to = random.below_forty().min(places.saturating_sub(1));
            plain_link(&mut file, from, to, 1)?;
        }
    }
    Ok(file)
}

// Closes about one link in eight.
fn closures(random: &mut Random) -> [bool; 4096] {
    let mut closed = [false; 4096];
    for shut in closed.iter_mut().take(160) {
        *shut = random.below_forty() < 5;
    }
    closed
}

// How many places have another trigger than by the definition.
fn wrong_triggers(into: &[u64; 40], triggers: &[u32]) -> usize {
    let held = complete(into);
    triggers
        .iter()
        .enumerate()
        .filter(|(place, found)| trigger(&held, *place) != Some(**found as usize))
        .count()
}

// How many of the first entries of the order list stand before one of their approaches that is no trigger.
fn misplaced(into: &[u64; 40], triggers: &[u32], order: &[u32], count: usize) -> usize {
    let mut own = 0u64;
    for (place, found) in triggers.iter().enumerate() {
        if place < 40 && place == *found as usize {
            own |= 1u64 << place;
        }
    }
    let mut seen = 0u64;
    let mut wrong = 0usize;
    for entry in order.iter().take(triggers.len().saturating_sub(count)) {
        let place = *entry as usize;
        if place >= 40 || into[place] & !own & !seen != 0 {
            wrong = wrong.saturating_add(1);
        } else {
            seen |= 1u64 << place;
        }
    }
    wrong
}

// Divides one map both ways, and answers how many entries differ.
fn differences(heap: Global, map: &Map<'_>, closed: &[bool; 4096]) -> Result<usize, AllocError> {
    let network = Network::of_map(map, closed);
    let mut triggers = vec![in heap; 0u32; network.places]?;
    let mut order = vec![in heap; 0u32; network.places]?;
    let Ok(division) = divide(&network, triggers.as_mut_slice(), order.as_mut_slice()) else {
        // A refusal counts as one entry that differs.
        return Ok(1);
    };
    let into = approaches(map, closed);
    let late = misplaced(
        &into,
        triggers.as_slice(),
        order.as_slice(),
        division.count as usize,
    );
    Ok(wrong_triggers(&into, triggers.as_slice()).saturating_add(late))
}

// Compares on 400 maps and prints how many differ.
pub fn compare(rt: &HostRuntime) -> io::Result<()> {
    let mut random = Random::new(1);
    let mut differ = 0usize;
    let mut refused = 0u32;
    for round in 0..400u16 {
        let file = generated(rt.alloc(), &mut random, round % 40 + 1, round % 4 + 1)?;
        let closed = closures(&mut random);
        let mut map = Map::empty();
        match map.read(file.as_slice()) {
            Ok(()) => differ = differ.saturating_add(differences(rt.alloc(), &map, &closed)?),
            Err(_) => refused = refused.saturating_add(1),
        }
    }
    println!(rt; "divisions: 400 maps, {refused} refused, {differ} entries differ")
}
