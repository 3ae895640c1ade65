use kinds::kind::Kind;
use queues::entry::is_below;
use queues::refusal::OfferRefusal;

// The plain list: whoever waits stands in some place of it.
#[derive(Drop)]
pub struct Plain<'a, C> {
    list: &'a mut [Option<(u32, C)>],
    floor: Option<C>,
    takes: u32,
}

// Whether `a` leaves before `b`: a second way beside `before`, on purpose, since the trials compare the two.
fn sooner<K: Kind>(a: (u32, K::Cost), b: (u32, K::Cost)) -> bool {
    K::less(a.1, b.1) || !K::less(b.1, a.1) && a.0 < b.0
}

fn is_number<C: Copy>(waits: Option<(u32, C)>, number: u32) -> bool {
    waits.is_some_and(|pair| pair.0 == number)
}

impl<'a, C: Copy> Plain<'a, C> {
    pub fn new(list: &'a mut [Option<(u32, C)>]) -> Plain<'a, C> {
        Plain {
            list,
            floor: None,
            takes: 0,
        }
    }

    pub fn clear(&mut self) {
        self.list.fill(None);
        self.floor = None;
        self.takes = 0;
    }

    pub fn size(&self) -> usize {
        self.list.len()
    }

    pub fn takes(&self) -> u32 {
        self.takes
    }

    pub fn floor(&self) -> Option<C> {
        self.floor
    }

    pub fn waiting(&self) -> usize {
        // A `for` and no `count()`: the trials count twice a step, and that takes twice the time.
        let mut waiting = 0;
        for waits in self.list.iter() {
            if waits.is_some() {
                waiting += 1;
            }
        }
        waiting
    }

    // The place of a number.
    fn find(&self, number: u32) -> Option<usize> {
        self.list.iter().position(|waits| is_number(*waits, number))
    }

    fn cost_at(&self, found: Option<usize>) -> Option<C> {
        let waits = *self.list.get(found?)?;
        waits.map(|pair| pair.1)
    }

    pub fn cost(&self, number: u32) -> Option<C> {
        self.cost_at(self.find(number))
    }

    // The place of a number that waits, or else a free one.
    fn place_for(&self, own: Option<usize>) -> Option<usize> {
        own.or_else(|| self.list.iter().position(|waits| waits.is_none()))
    }

    // The first to leave, with its place.
    fn first<K: Kind<Cost = C>>(&self) -> Option<(usize, (u32, C))> {
        self.list
            .iter()
            .enumerate()
            .filter_map(|(place, waits)| waits.map(|pair| (place, pair)))
            .reduce(|best, next| if sooner::<K>(next.1, best.1) {
                next
            } else {
                best
            })
    }

    pub fn offer<K: Kind<Cost = C>>(&mut self, number: u32, cost: C) -> Result<(), OfferRefusal> {
        if is_below::<K>(cost, self.floor) {
            return Err(OfferRefusal::BelowFloor);
        }
        let own = self.find(number);
        if own.is_some() && !self.cost_at(own).is_some_and(|old| K::less(cost, old)) {
            return Ok(());
        }
        let place = self.place_for(own).ok_or(OfferRefusal::Full)?;
        if let Some(waits) = self.list.get_mut(place) {
            *waits = Some((number, cost));
        }
        Ok(())
    }

    pub fn take<K: Kind<Cost = C>>(&mut self) -> Option<(u32, C)> {
        let (place, first) = self.first::<K>()?;
        if let Some(waits) = self.list.get_mut(place) {
            *waits = None;
        }
        self.floor = Some(first.1);
        self.takes = self.takes.saturating_add(1);
        Some(first)
    }
}
