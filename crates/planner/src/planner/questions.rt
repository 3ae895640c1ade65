ghost use Rattle.std.specs.Prelude.{◌≡◌, false, None, slice_index_or};
ghost use Rattle.planner.specs.Book.{is_closed};
ghost use Rattle.planner.specs.State.{book};

use super::Planner;
use mapfile::map::Map;

impl<'a> Planner<'a> {
    // The planner's map.
    pub fn map(&self) -> Map<'a>
        ensures { result ≡ self.now.map }
    {
        self.map
    }

    // The turnout of the station at a place, if one stands there.
    pub fn turnout(&self, place: u32) -> Option<u32>
        ensures { result ≡ slice_index_or (book self.now).stations place None }
    {
        self.stations.get(place as usize).copied().flatten()
    }

    // Whether a link is closed.
    pub fn is_closed(&self, link: u32) -> bool
        ensures { result ≡ is_closed (book self.now) link }
    {
        self.closed.get(link as usize).is_some_and(|&closed| closed)
    }

    // Whether nothing was changed since the plan was solved.
    pub fn is_solved(&self) -> bool
        ensures { result ≡ (book self.now).solved }
    {
        self.solved
    }
}
