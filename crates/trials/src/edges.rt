// Files, stations and lines at their limits, each with its answer.
use super::files::{lawful, patched};
use console::answer::{Answer, Denial};
use console::session::handle;
use mapfile::map::Map;
use planner::planner::Planner;
use std::io;

// Prints the answer to a file.
fn report(rt: &HostRuntime, name: &str, file: &[u8]) -> io::Result<()> {
    let mut map = Map::empty();
    let answer = Answer(map.read(file).map_err(Denial::from));
    println!(rt; "{name}: {answer}")
}

// Files of every shape: none of some records, and as many of each as there may be.
pub fn shapes(rt: &HostRuntime) -> io::Result<()> {
    let shapes = [
        ("one place", 1, 0, 0),
        ("no links", 5, 0, 1),
        ("no signals", 5, 6, 0),
        ("the largest map", 2048, 4096, 256),
        ("a place more", 2049, 6, 1),
        ("a link more", 5, 4097, 1),
        ("a signal more", 5, 6, 257),
        ("no place", 0, 0, 0),
    ];
    for (name, places, links, signals) in shapes {
        let file = lawful(rt.alloc(), places, links, signals)?;
        report(rt, name, file.as_slice())?;
    }
    Ok(())
}

// A lawful file of 5 places, 6 links and a signal, cut short or drawn out.
pub fn sizes(rt: &HostRuntime) -> io::Result<()> {
    let mut file = lawful(rt.alloc(), 5, 6, 1)?;
    report(rt, "the file itself", file.as_slice())?;
    file.push(0)?;
    report(rt, "a byte long", file.as_slice())?;
    file.truncate(125);
    report(rt, "a byte short", file.as_slice())?;
    file.truncate(26);
    report(rt, "contents alone", file.as_slice())?;
    file.truncate(25);
    report(rt, "contents a byte short", file.as_slice())?;
    file.clear();
    report(rt, "the empty file", file.as_slice())
}

// The same file with one byte changed, so that a field of it breaks its rule.
pub fn fields(rt: &HostRuntime) -> io::Result<()> {
    let file = lawful(rt.alloc(), 5, 6, 1)?;
    let changes = [
        ("edition", 0, 2),
        ("contents lines", 1, 4),
        ("kind of places", 2, 2),
        ("zero of places", 3, 1),
        ("count of places 0", 4, 0),
        ("count of places above", 5, 9),
        ("start of places", 6, 27),
        ("kind of links", 10, 1),
        ("count of links above", 13, 17),
        ("start of links", 14, 47),
        ("zero of signals", 19, 1),
        ("count of signals above", 21, 2),
        ("start of signals", 22, 119),
        ("site 0", 26, 0),
        ("site not above", 30, 1),
        ("from not a place", 46, 5),
        ("from below", 70, 0),
        ("to not a place", 48, 5),
        ("class 16", 52, 16),
        ("zero of a link", 53, 1),
        ("signal unknown", 54, 1),
        ("signal 0", 54, 0),
        ("grade 1024", 57, 4),
        ("cycle above", 119, 10),
        ("green start at the cycle", 120, 96),
        ("green longer than the cycle", 122, 97),
        ("zero of a signal", 124, 1),
    ];
    for (name, at, value) in changes {
        let changed = patched(rt.alloc(), file.as_slice(), at, value)?;
        report(rt, name, changed.as_slice())?;
    }
    Ok(())
}

// Each line in turn, on a map of 65 places.
pub fn lines(rt: &HostRuntime) -> io::Result<()> {
    let file = lawful(rt.alloc(), 65, 6, 1)?;
    let mut map = Map::empty();
    let _ = map.read(file.as_slice());
    let mut planner = Planner::new(map);
    for place in 0..63 {
        let _ = planner.place(place, 0);
    }
    let lines = [
        "P 63 36001",
        "P 63 36000",
        "P 64 0",
        "P 63 1",
        "L 63",
        "P 64 0",
        "L 0000000064",
        "L 4294967295",
        "L 4294967296",
        "L 00000000064",
        "C 5",
        "C 6",
        "R 5 ",
        "R  5",
        "R 5",
        "R",
        "P 1",
        "P 1 2 3",
        "p 1 2",
        "",
    ];
    for line in lines {
        let answer = Answer(handle(&mut planner, line.as_bytes()));
        println!(rt; "'{line}': {answer}")?;
    }
    Ok(())
}
