ghost use Rattle.std.specs.Prelude.{◌≡◌};
ghost use Rattle.planner.specs.Book.{blank, after_all};
ghost use Rattle.planner.specs.State.{book, Makes};

use super::Planner;
use crate::change::{Change, Refusal};
use mapfile::map::Map;

impl<'a> Planner<'a> {
    // Makes one change.
    pub fn make(&mut self, change: Change) -> Result<(), Refusal>
        ensures { Makes self.old self.new change result }
    {
        match change {
            Change::Place { place, turnout } => self.place(place, turnout),
            Change::Lift { place } => self.lift(place),
            Change::Close { link } => self.close(link),
            Change::Reopen { link } => self.reopen(link),
        }
    }

    // Makes the changes of a list, the first of them first; those that are refused change nothing.
    pub fn make_all(&mut self, changes: &[Change])
        ensures book { book self.new ≡ after_all self.old.map.counts (book self.old) changes.now }
        ensures map { self.new.map ≡ self.old.map }
    {
        for change in changes {
            let _ = self.make(*change);
        }
    }

    // A new planner after a list of changes: its book is the book of the list.
    pub fn after(map: Map<'a>, changes: &[Change]) -> Planner<'a>
        ensures book { book result ≡ after_all map.entry.counts blank changes.now }
        ensures map { result.map ≡ map.entry }
    {
        let mut planner = Planner::new(map);
        planner.make_all(changes);
        planner
    }
}
