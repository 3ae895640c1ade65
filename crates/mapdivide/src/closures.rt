ghost use Rattle.std.specs.Prelude.{◌≡◌};
ghost use Rattle.mapdivide.specs.Closing.{answer_to, closed_after};

use console::answer::Denial;
use console::numeral::number;
use mapfile::map::Map;
use planner::change::Refusal;

// Closes the link that a line names, or says why not.
pub fn close(map: &Map<'_>, closed: &mut [bool; 4096], line: &[u8]) -> Result<(), Denial>
    ensures answer { result ≡ answer_to map.now.counts line.now }
    ensures closed { closed.new ≡ closed_after map.now.counts line.now closed.old }
{
    let link = number(line).ok_or(Denial::Unreadable)? as usize;
    if link >= map.counts().links {
        return Err(Refusal::UnknownNumber.into());
    }
    closed[link] = true;
    Ok(())
}
