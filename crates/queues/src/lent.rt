ghost use Rattle.std.specs.Prelude.{◌≡◌, ◌+◌, ◌-◌, ◌≤◌, min, length, Some, option_and_then};
ghost use Rattle.queues.specs.State.{cleared};
ghost use Rattle.queues.specs.Cells.{item as item_at, Found, Refloored};
ghost use Rattle.queues.specs.Lent.{lent_state, admitted, place_of};

use super::cells::{floor_of, scan, set_floor};
use super::entry::{Entry, is_below};
use super::refusal::OfferRefusal;
use kinds::kind::Kind;

// A lent list, and what a queue keeps beside it: the first `waiting` entries have the items that wait. No `ArrayVec`, which
// owns its list: a queue is made over one that it is lent.
// That they are no more than the list is no ghost field: the check does not cover lending the list through a struct that
// has one and lies in another.
#[derive(Drop)]
pub struct Lent<'a, C> {
    pub entries: &'a mut [Entry<C>],
    pub waiting: usize,
    pub takes: u32,
}

impl<'a, C: Copy> Lent<'a, C> {
    // Nothing waits, whatever the list held.
    pub fn over(entries: &'a mut [Entry<C>]) -> Lent<'a, C>
        ensures { lent_state result ≡ cleared (length entries.old) }
    {
        set_floor(entries, None);
        Lent {
            entries,
            waiting: 0,
            takes: 0,
        }
    }

    pub fn clear(&mut self)
        ensures { lent_state self.new ≡ cleared (lent_state self.old).size }
    {
        set_floor(self.entries, None);
        self.waiting = 0;
        self.takes = 0;
    }

    // The cost last taken.
    pub fn floor(&self) -> Option<C>
        ensures { result ≡ (lent_state self.now).floor }
    {
        floor_of(self.entries)
    }

    // The place of `number` among the items that wait, by a scan.
    pub fn scan(&self, number: u32) -> Option<usize>
        requires { self.now.waiting ≤ length self.now.entries.now }
        ensures { Found (item_at self.now.entries.now) number self.now.waiting result }
    {
        scan(&self.entries[..self.waiting], number)
    }

    // The cost of the item at `found`, if there is one.
    pub fn cost_at(&self, found: Option<usize>) -> Option<C>
        ensures { result ≡ option_and_then (λ place. (item_at self.now.entries.now place).cost) found }
    {
        self.entries.get(found?)?.item.cost
    }

    // Refuses a cost below the floor.
    pub fn admit<K: Kind<Cost = C>>(&self, cost: C) -> Result<(), OfferRefusal>
        ensures { result ≡ admitted K.Kind.meaning.less self.now cost }
    {
        if is_below::<K>(cost, self.floor()) {
            Err(OfferRefusal::BelowFloor)
        } else {
            Ok(())
        }
    }

    // Where an offered item goes, if its number stands at `found`: to its own place, or nowhere if it waits at no more; a
    // number that does not wait goes to the next free place.
    pub fn place_for<K: Kind<Cost = C>>(
        &self,
        found: Option<usize>,
        cost: C,
    ) -> Result<Option<usize>, OfferRefusal>
        ensures { result ≡ place_of K.Kind.meaning.less self.now found cost }
    {
        match found {
            Some(place) => {
                let lower = is_below::<K>(cost, self.cost_at(found));
                Ok(lower.then_some(place))
            }
            None if self.waiting == self.entries.len() => Err(OfferRefusal::Full),
            None => Ok(Some(self.waiting)),
        }
    }

    // Counts a take at `cost`: one item fewer waits.
    pub fn count_take(&mut self, cost: C)
        ensures floor { Refloored self.old.entries.now self.new.entries.now (Some cost) }
        ensures waiting { self.new.waiting ≡ self.old.waiting - 1 }
        ensures takes { self.new.takes ≡ min (self.old.takes + 1) 4294967295 }
    {
        set_floor(self.entries, Some(cost));
        self.waiting = self.waiting.saturating_sub(1);
        self.takes = self.takes.saturating_add(1);
    }
}
