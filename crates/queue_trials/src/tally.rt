use queues::refusal::OfferRefusal;
use std::fmt;
use std::fmt::{Display, Formatter, Write};

// A call, with its answer.
#[derive(Clone, Copy)]
pub enum Call<C> {
    Clear,
    Take(Option<(u32, C)>),
    Offer(Result<(), OfferRefusal>),
}

// How often each answer came about, with the queues and the list alike, and how often they differed.
#[derive(Clone, Copy, Default)]
pub struct Tally {
    taken: u32,
    nothing: u32,
    accepted: u32,
    below_floor: u32,
    full: u32,
    cleared: u32,
    differed: u32,
}

impl Tally {
    // Counts a call; none, if the queues and the list differed.
    pub fn add<C: Copy>(&mut self, call: Option<Call<C>>) {
        let count = match call {
            Some(Call::Take(Some(_))) => &mut self.taken,
            Some(Call::Take(None)) => &mut self.nothing,
            Some(Call::Offer(Ok(()))) => &mut self.accepted,
            Some(Call::Offer(Err(OfferRefusal::BelowFloor))) => &mut self.below_floor,
            Some(Call::Offer(Err(OfferRefusal::Full))) => &mut self.full,
            Some(Call::Clear) => &mut self.cleared,
            None => &mut self.differed,
        };
        *count = count.saturating_add(1);
    }
}

impl Display for Tally {
    fn fmt<W: Write>(&self, f: &mut Formatter<W>) -> fmt::Result {
        write!(
            f,
            "{} taken, {} takes of nothing, {} offers accepted, {} below the floor, {} full, {} cleared, {} differed",
            self.taken,
            self.nothing,
            self.accepted,
            self.below_floor,
            self.full,
            self.cleared,
            self.differed,
        )
    }
}
