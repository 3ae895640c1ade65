ghost use Rattle.std.specs.Prelude.{◌≡◌, ◌<◌, ◌≤◌, IfOk, IfErr};
ghost use Rattle.planner.specs.Book.{blank, has_station, closing};
ghost use Rattle.planner.specs.State.{book, Makes};

use super::Planner;
use crate::change::{Change, Refusal};
use mapfile::map::Map;

// The longest turnout, in tenths of a second.
const LONGEST_TURNOUT: u32 = 36000;
// The most places that may have a station.
const MOST_STATIONS: usize = 64;

// The place in its table of a number that counts below `count`.
fn known(number: u32, count: usize) -> Result<usize, Refusal>
    ensures known { IfOk result (λ at. (at ≡ number) × (number < count)) }
    ensures unknown { IfErr result (λ e. (e ≡ Refusal.UnknownNumber) × (count ≤ number)) }
{
    let at = number as usize;
    if at >= count {
        return Err(Refusal::UnknownNumber);
    }
    Ok(at)
}

impl<'a> Planner<'a> {
    // A planner of a map, without stations, all links open, unsolved.
    pub fn new(map: Map<'a>) -> Planner<'a>
        ensures map { result.map ≡ map.entry }
        ensures book { book result ≡ blank }
    {
        Planner {
            map,
            stations: [None; 2048],
            standing: 0,
            closed: [false; 4096],
            solved: false,
        }
    }

    fn has_station(&self, at: usize) -> bool
        requires { at < 2048 }
        ensures { result ≡ has_station (book self.now) at }
    {
        let station = self.stations[at];
        station.is_some()
    }

    // Sets a station, or replaces its turnout.
    pub fn place(&mut self, place: u32, turnout: u32) -> Result<(), Refusal>
        ensures { Makes self.old self.new (Change.Place place turnout) result }
    {
        let at = known(place, self.map.counts().places)?;
        if turnout > LONGEST_TURNOUT {
            return Err(Refusal::TurnoutTooLong);
        }
        if !self.has_station(at) {
            if self.standing >= MOST_STATIONS {
                return Err(Refusal::StationsFull);
            }
            self.standing += 1;
        }
        self.stations[at] = Some(turnout);
        self.solved = false;
        Ok(())
    }

    // Strikes a station.
    pub fn lift(&mut self, place: u32) -> Result<(), Refusal>
        ensures { Makes self.old self.new (Change.Lift place) result }
    {
        let at = known(place, self.map.counts().places)?;
        if !self.has_station(at) {
            return Err(Refusal::AlreadySo);
        }
        self.stations[at] = None;
        self.standing -= 1;
        self.solved = false;
        Ok(())
    }

    // Closes a link, or reopens it.
    fn set_closed(&mut self, link: u32, closed: bool) -> Result<(), Refusal>
        ensures { Makes self.old self.new (closing closed link) result }
    {
        let at = known(link, self.map.counts().links)?;
        if self.closed[at] == closed {
            return Err(Refusal::AlreadySo);
        }
        self.closed[at] = closed;
        self.solved = false;
        Ok(())
    }

    // Closes a link.
    pub fn close(&mut self, link: u32) -> Result<(), Refusal>
        ensures { Makes self.old self.new (Change.Close link) result }
    {
        self.set_closed(link, true)
    }

    // Reopens a link.
    pub fn reopen(&mut self, link: u32) -> Result<(), Refusal>
        ensures { Makes self.old self.new (Change.Reopen link) result }
    {
        self.set_closed(link, false)
    }
}
