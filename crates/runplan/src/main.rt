// runplan: reads map.bin, then answers each line of standard input with a line.
#![tactic(auto)]

use console::answer::{Answer, Denial};
use console::input::{each_line, map_file};
use console::session::handle;
use mapfile::map::Map;
use planner::planner::Planner;
use std::io;

fn main(rt: HostRuntime) -> io::Result<()> {
    // The start is mapdivide's too: a function that opened the map would leave the file to keep and the fault to print,
    // which is the most of it.
    let file = map_file(&rt);
    let mut map = Map::empty();
    if let Err(fault) = map.read(file.as_slice()) {
        return rt.println(Denial::from(fault));
    }
    let mut planner = Planner::new(map);
    each_line(&rt, |line| rt.println(Answer(handle(&mut planner, line))))
}
