// mapdivide: reads map.bin and the numbers of closed links, then prints each place with its trigger.
#![tactic(auto)]

use console::answer::Denial;
use console::input::{each_line, map_file};
use console::numeral::number;
use mapfile::map::Map;
use std::{env, io};

mod closures;
mod listed;

use closures::close;
use listed::{Listed, divided};

// Closes each link that a line of standard input names, and answers each line that names none.
fn read_closures(rt: &HostRuntime, map: &Map<'_>, closed: &mut [bool; 4096]) -> io::Result<()> {
    each_line(rt, |line| match close(map, closed, line) {
        Ok(()) => Ok(()),
        Err(denial) => rt.println(denial),
    })
}

fn print(rt: &HostRuntime, listed: &Listed) -> io::Result<()> {
    let places = listed.triggers.len();
    let count = listed.count;
    println!(rt; "places {places} triggers {count}")?;
    for (place, trigger) in listed.triggers.iter().enumerate() {
        println!(rt; "{place} {trigger}")?;
    }
    Ok(())
}

// How often to divide: the program's argument, for measuring, or once.
fn repeats(rt: &HostRuntime) -> io::Result<u32> {
    let count = env::args(rt)?
        .skip(1)
        .find_map(|word| number(word.as_bytes()));
    Ok(count.unwrap_or(1))
}

fn main(rt: HostRuntime) -> io::Result<()> {
    // The start is runplan's too: a function that opened the map would leave the file to keep and the fault to print,
    // which is the most of it.
    let file = map_file(&rt);
    let mut map = Map::empty();
    if let Err(fault) = map.read(file.as_slice()) {
        return rt.println(Denial::from(fault));
    }
    let mut closed = [false; 4096];
    read_closures(&rt, &map, &mut closed)?;
    for _ in 1..repeats(&rt)? {
        let _ = divided(rt.alloc(), &map, &closed)?;
    }
    print(&rt, &divided(rt.alloc(), &map, &closed)?)
}
