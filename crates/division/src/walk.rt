ghost use Rattle.std.specs.Prelude.{◌≡◌, ◌<◌, ◌&&◌, All, None, is_none, slice_index_or};

use arrayvec::ArrayVec;
use network::network::Network;

// A depth-first walk over the places that have no owner. Of each place that it has met it knows how many of its links it
// has followed. A place that it leaves joins the list `left`. As with a grower, each call says that the network stays.
#[derive(Drop)]
pub struct Walk<'n> {
    net: &'n Network,
    stack: ArrayVec<u16, 2048>,
    followed: [Option<u16>; 2048],
    pub left: ArrayVec<u16, 2048>,
    ghost entered: { All (λ p. p < net.now.places) stack.items },
    ghost left_are: { All (λ p. p < net.now.places) left.items },
}

impl<'n> Walk<'n> {
    fn new(net: &'n Network) -> Walk<'n>
        ensures { result.net ≡ net.entry }
    {
        Walk {
            net,
            stack: ArrayVec::new(),
            followed: [None; 2048],
            left: ArrayVec::new(),
        }
    }

    // Whether a place has no owner and was not met before.
    fn is_new(&self, owners: &[Option<u16>; 2048], place: u16) -> bool
        requires { place < self.now.net.now.places }
        ensures { result ≡ (is_none (slice_index_or owners.now place None) && is_none (slice_index_or self.now.followed place None)) }
    {
        owners[place as usize].is_none() && self.followed[place as usize].is_none()
    }

    // Steps onto a place.
    fn enter(&mut self, place: u16)
        requires { place < self.old.net.now.places }
        ensures { self.new.net ≡ self.old.net }
    {
        self.followed[place as usize] = Some(0);
        if !self.stack.is_full() {
            self.stack.push(place);
        }
    }

    // Leaves the place on top of the stack.
    fn leave(&mut self)
        ensures { self.new.net ≡ self.old.net }
    {
        if let Some(place) = self.stack.pop() {
            if !self.left.is_full() {
                self.left.push(place);
            }
        }
    }

    // One turn from the place on top: along its next link, or back.
    fn turn(&mut self, owners: &[Option<u16>; 2048], place: u16)
        requires { place < self.old.net.now.places }
        ensures { self.new.net ≡ self.old.net }
    {
        let followed = self.followed[place as usize].unwrap_or(0);
        let links = self.net.leaving(place as usize);
        let Some(link) = links.get(followed as usize).copied() else {
            self.leave();
            return;
        };
        self.followed[place as usize] = Some(followed + 1);
        if self.is_new(owners, link.head) {
            self.enter(link.head);
        }
    }

    // Walks from a place, if it has no owner and was not met before. Each turn follows a link or leaves a place, and no
    // link or place has two, so the turns suffice.
    fn run(&mut self, owners: &[Option<u16>; 2048], start: u16)
        requires { start < self.old.net.now.places }
        ensures { self.new.net ≡ self.old.net }
    {
        if self.is_new(owners, start) {
            self.enter(start);
        }
        for _ in 0..self.net.open_links().len() + self.net.places {
            let Some(place) = self.stack.as_slice().last().copied() else {
                return;
            };
            self.turn(owners, place);
        }
    }
}

// The places without an owner, in the order in which a depth-first walk leaves them.
pub fn postorder(net: &Network, owners: &[Option<u16>; 2048]) -> ArrayVec<u16, 2048>
    ensures { All (λ p. p < net.now.places) result.items }
{
    let mut walk = Walk::new(net);
    for start in 0..net.places {
        walk.run(owners, start as u16);
    }
    walk.left
}
