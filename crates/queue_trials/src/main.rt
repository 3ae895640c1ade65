// Trials: the same calls on a row, on a heap and on a plain list, which have to agree at every step.
#![tactic(auto)]

ghost use Rattle.std.specs.Prelude.{◌≤◌, length};

mod counts;
mod plain;
mod tally;
mod trial;

use counts::Stages;
use kinds::kind::Kind;
use kinds::running::RunningTime;
use queue_heap::heap::Heap;
use queue_row::row::Row;
use queues::entry::Entry;
use std::io;
use tally::Tally;
use trial::trial;

const ROOM: usize = 300;

const STEPS: u32 = 20_000;

// A row, a heap and a plain list, each over the first `size` places of a lent list.
fn side_by_side<K: Kind>(
    kind: &K,
    size: usize,
    row: &mut [Entry<K::Cost>],
    heap: &mut [Entry<K::Cost>],
    list: &mut [Option<(u32, K::Cost)>],
) -> Tally
where
    K::Cost: PartialEq,
    requires row_room { size ≤ length row.old }
    requires heap_room { size ≤ length heap.old }
    requires list_room { size ≤ length list.old }
{
    trial::<K, Row<'_, K::Cost>, Heap<'_, K::Cost>>(
        kind,
        &mut row[..size],
        &mut heap[..size],
        &mut list[..size],
        STEPS,
    )
}

fn main(rt: HostRuntime) -> io::Result<()> {
    for size in [0, 1, 2, 37, ROOM] {
        let numbers = side_by_side(
            &RunningTime,
            size,
            &mut [Entry::blank(); ROOM],
            &mut [Entry::blank(); ROOM],
            &mut [None; ROOM],
        );
        println!(rt; "numbers, size {size}: {numbers}")?;
        let pairs = side_by_side(
            &Stages,
            size,
            &mut [Entry::blank(); ROOM],
            &mut [Entry::blank(); ROOM],
            &mut [None; ROOM],
        );
        println!(rt; "pairs, size {size}: {pairs}")?;
    }
    Ok(())
}
