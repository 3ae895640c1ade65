use super::answer::{ListLength, Stretch};
use super::divide::divide;
use network::ends::{DrawnLink, Ends};
use network::network::Network;
use std::process::Abort;
use std::test::Fail;

// The network of some open links; none if one of them has an end that is no place.
fn network(places: usize, links: &[(u16, u16)]) -> Option<Network> {
    if places > 2048 || links.len() > 4096 {
        return None;
    }
    let mut drawn = [DrawnLink::default(); 4096];
    for (number, (tail, head)) in links.iter().enumerate() {
        if *tail as usize >= places || *head as usize >= places {
            return None;
        }
        drawn[number] = DrawnLink {
            tail: *tail,
            head: *head,
            is_open: true,
        };
    }
    Some(Network::of(&Ends {
        places,
        links: links.len(),
        drawn,
    }))
}

// Divides a network of some links, and compares the count of triggers and the two lists, which began as nines.
fn check<const PLACES: usize>(
    rt: &impl Abort,
    links: &[(u16, u16)],
    count: u32,
    triggers: [u32; PLACES],
    order: [u32; PLACES],
) -> Result<(), Fail> {
    let Some(net) = network(PLACES, links) else {
        return Err(Fail::new("no network"));
    };
    let mut found = [9u32; PLACES];
    let mut laid = [9u32; PLACES];
    let division = divide(&net, &mut found, &mut laid)?;
    assert_eq!(rt; division.count, count);
    assert_eq!(rt; found, triggers);
    assert_eq!(rt; laid, order);
    Ok(())
}

#[test]
fn five_places(rt: HostRuntime) -> Result<(), Fail> {
    let links = [(0, 1), (0, 2), (1, 2), (2, 3), (3, 1), (3, 4)];
    check(&rt, &links, 3, [0, 1, 2, 2, 2], [3, 4, 9, 9, 9])
}

#[test]
fn five_places_one_link_closed(rt: HostRuntime) -> Result<(), Fail> {
    let links = [(0, 2), (1, 2), (2, 3), (3, 1), (3, 4)];
    check(&rt, &links, 2, [0, 2, 2, 2, 2], [3, 1, 4, 9, 9])
}

#[test]
fn stretch_of_a_trigger(rt: HostRuntime) -> Result<(), Fail> {
    let Some(net) = network(5, &[(0, 2), (1, 2), (2, 3), (3, 1), (3, 4)]) else {
        return Err(Fail::new("no network"));
    };
    let division = divide(&net, &mut [9u32; 5], &mut [9u32; 5])?;
    assert_eq!(rt; division.stretches[2], Stretch { begin: 0, end: 3 });
    Ok(())
}

#[test]
fn linked_both_ways(rt: HostRuntime) -> Result<(), Fail> {
    check(&rt, &[(0, 1), (1, 0)], 1, [0, 0], [1, 9])
}

#[test]
fn linked_to_itself(rt: HostRuntime) -> Result<(), Fail> {
    check(&rt, &[(0, 0), (0, 1)], 1, [0, 0], [1, 9])
}

#[test]
fn parallel_links(rt: HostRuntime) -> Result<(), Fail> {
    check(&rt, &[(1, 0), (1, 0)], 1, [1, 1], [0, 9])
}

#[test]
fn ring_numbered_backwards_with_a_tail(rt: HostRuntime) -> Result<(), Fail> {
    let links = [(0, 3), (0, 4), (1, 0), (2, 1), (3, 2)];
    check(&rt, &links, 1, [0, 0, 0, 0, 0], [3, 4, 2, 1, 9])
}

#[test]
fn two_rings_share_a_place(rt: HostRuntime) -> Result<(), Fail> {
    check(
        &rt,
        &[(0, 1), (1, 0), (1, 2), (2, 1)],
        1,
        [1, 1, 1],
        [0, 2, 9],
    )
}

#[test]
fn no_links(rt: HostRuntime) -> Result<(), Fail> {
    check(&rt, &[], 3, [0, 1, 2], [9, 9, 9])
}

#[test]
fn short_list(rt: HostRuntime) -> Result<(), Fail> {
    let Some(net) = network(2, &[(0, 1)]) else {
        return Err(Fail::new("no network"));
    };
    let mut triggers = [9u32; 2];
    let mut order = [9u32; 1];
    assert!(rt; divide(&net, &mut triggers, &mut order).is_err());
    assert_eq!(rt; triggers, [9, 9]);
    assert_eq!(rt; order, [9]);
    assert_eq!(rt; u8::from(ListLength), 11);
    Ok(())
}
