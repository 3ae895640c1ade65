ghost use Rattle.std.specs.Prelude.{◌≡◌, length};
ghost use Rattle.queues.specs.State.{State, cleared};
ghost use Rattle.queues.specs.Offers.{offered, answer};
ghost use Rattle.queues.specs.Takes.{Took};
ghost use Rattle.queues.specs.Sound.{Sound};

use super::entry::Entry;
use super::refusal::OfferRefusal;
use kinds::kind::Kind;

// A queue that goes by the order of one kind.
pub trait Queue<K: Kind> {
    // What the queue means.
    ghost state: { Self → State K.Cost };

    // The queue is well kept: making and clearing give this, every call keeps it. A member, and no ghost field: it goes by
    // the kind, which a queue's type does not name.
    ghost kept: { Self → Type 0 };

    // What every well-kept queue's state keeps. A member above the calls, and no law: clauses of callers may name it.
    ghost sound: { (q : Self) → kept q → Sound (state q) };

    // Leaves nothing waiting, no floor and no takes, from any state.
    fn clear(&mut self)
        ensures state { state self.new ≡ cleared (state self.old).size }
        ensures kept { kept self.new };

    // Has `number` wait at `cost`, unless it waits at no more already.
    fn offer(&mut self, number: u32, cost: K::Cost) -> Result<(), OfferRefusal>
        requires { kept self.old }
        ensures answer { result ≡ answer K.Kind.meaning.less (state self.old) number cost }
        ensures state { state self.new ≡ offered K.Kind.meaning.less (state self.old) number cost }
        ensures kept { kept self.new };

    // Takes the least cost out, the lowest number among equals.
    fn take(&mut self) -> Option<(u32, K::Cost)>
        requires { kept self.old }
        ensures took { Took K.Kind.meaning.less (state self.old) result (state self.new) }
        ensures kept { kept self.new };

    // The most that may wait.
    fn size(&self) -> usize
        ensures { result ≡ (state self.now).size };

    // How many wait.
    fn waiting(&self) -> usize
        requires { kept self.now }
        ensures { result ≡ (state self.now).waiting };

    // The takes since clearing, up to 4,294,967,295.
    fn takes(&self) -> u32
        requires { kept self.now }
        ensures { result ≡ (state self.now).takes };

    // The cost last taken.
    fn floor(&self) -> Option<K::Cost>
        requires { kept self.now }
        ensures { result ≡ (state self.now).floor };

    // The cost at which `number` waits.
    fn cost(&self, number: u32) -> Option<K::Cost>
        requires { kept self.now }
        ensures { result ≡ (state self.now).at number };
}

// A queue over a list that its maker lends: cleared, whatever the list held, and as large as the list is long.
pub trait OverList<'a, K: Kind>: Queue<K> + Sized {
    fn over(entries: &'a mut [Entry<K::Cost>]) -> Self
        ensures state { Self.state result ≡ cleared (length entries.old) }
        ensures kept { Self.kept result };
}
