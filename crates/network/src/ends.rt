ghost use Rattle.std.specs.Prelude.{◌≡◌, ◌≤◌, length};
ghost use Rattle.network.specs.Within.{Within};

use std::alloc::AllocError;

mod drawn;

// A link of a map: the place that it leaves, the place that it leads to, and whether it is open. A flag beside the
// ends, and no `Option` of them: a closed link has its ends too.
#[derive(Clone, Copy, Default)]
pub struct DrawnLink {
    pub tail: u16,
    pub head: u16,
    pub is_open: bool,
}

// Where the links of a map begin and end, and which of them are open, by link number: the first `links` entries of `drawn`.
// A table with its count, and no `ArrayVec`: ends are copied like the numbers that they are, and an `ArrayVec` is not.
#[derive(Copy)]
pub struct Ends {
    pub places: usize,
    pub links: usize,
    pub drawn: [DrawnLink; 4096],
    ghost sized: { (places ≤ 2048) × (links ≤ 4096) × (length drawn ≡ 4096) },
    ghost within: { Within places links drawn },
}

// By hand: what a copy is stands on it.
impl Clone for Ends {
    ghost use Rattle.std.specs.Prelude.{◌≡◌, ⊤};

    ghost is_clone = { λ ends copy. (copy.places ≡ ends.places) × (copy.links ≡ ends.links) × (copy.drawn ≡ ends.drawn) };

    ghost is_infallible = { λ ends. ⊤ };

    fn clone(&self) -> Result<Ends, AllocError> {
        Ok(Ends {
            places: self.places,
            links: self.links,
            drawn: self.drawn,
        })
    }
}
