ghost use Rattle.std.specs.Prelude.{◌≡◌};
ghost use Rattle.queues.specs.Order.{before as ahead, cheaper as cheaper_of};
ghost use Rattle.queues.specs.Cells.{blank as blank_entry};
ghost use Rattle.queues.specs.Offers.{below};

use kinds::kind::Kind;

// A number that waits, with its cost. A place where nothing waits may hold none.
#[derive(Clone, Copy)]
pub struct Item<C> {
    pub number: u32,
    pub cost: Option<C>,
}

// One entry of a lent list. The first entry has the queue's floor; entry i has the place of number i, in queues that
// keep an index.
#[derive(Clone, Copy)]
pub struct Entry<C> {
    pub item: Item<C>,
    pub floor: Option<C>,
    pub slot: usize,
}

impl<C> Entry<C> {
    // An entry that holds nothing: to make a list of.
    pub fn blank() -> Entry<C>
        ensures { result ≡ blank_entry }
    {
        Entry {
            item: Item {
                number: 0,
                cost: None,
            },
            floor: None,
            slot: 0,
        }
    }
}

// No order is derived: a kind's `less` is a function that stands alone, and its costs need have no other.

// Whether `a` is less than `b`: no cost comes before every cost.
fn cheaper<K: Kind>(a: Option<K::Cost>, b: Option<K::Cost>) -> bool
    ensures { result ≡ cheaper_of K.Kind.meaning.less a b }
{
    b.is_some_and(|b| a.is_none_or(|a| K::less(a, b)))
}

// Whether `a` leaves before `b`: by its cost, then by its number.
pub fn before<K: Kind>(a: Item<K::Cost>, b: Item<K::Cost>) -> bool
    ensures { result ≡ ahead K.Kind.meaning.less a b }
{
    cheaper::<K>(a.cost, b.cost) || !cheaper::<K>(b.cost, a.cost) && a.number < b.number
}

// Whether `cost` is below `bound`; nothing is below none.
pub fn is_below<K: Kind>(cost: K::Cost, bound: Option<K::Cost>) -> bool
    ensures { result ≡ below K.Kind.meaning.less bound cost }
{
    bound.is_some_and(|bound| K::less(cost, bound))
}
