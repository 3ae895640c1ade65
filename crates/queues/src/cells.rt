ghost use Rattle.std.specs.Prelude.{◌≡◌, length};
ghost use Rattle.queues.specs.Cells.{entry, item, Found, Refloored};

use super::entry::Entry;

// The floor that a list holds; an empty list holds none.
pub fn floor_of<C: Copy>(cells: &[Entry<C>]) -> Option<C>
    ensures { result ≡ (entry cells.now 0).floor }
{
    cells.first()?.floor
}

// Writes the floor; an empty list has no room for one.
pub fn set_floor<C: Copy>(cells: &mut [Entry<C>], floor: Option<C>)
    ensures { Refloored cells.old cells.new floor }
{
    if let Some(first) = cells.first_mut() {
        first.floor = floor;
    }
}

// The place of `number`, by a scan.
pub fn scan<C: Copy>(cells: &[Entry<C>], number: u32) -> Option<usize>
    ensures { Found (item cells.now) number (length cells.now) result }
{
    cells.iter().position(|cell| cell.item.number == number)
}
