ghost use Rattle.std.specs.Prelude.{◌≡◌, ℕ, ◌+◌, ◌<◌, ◌≤◌, List, [], ◌∷◌, ◌++◌, length, take};

use std::marker::Model;

// A list of places. It is emptied at each growth, and only its length is written then: an `ArrayVec` writes a blank over
// each item that it forgets.
#[derive(Drop)]
pub struct Members {
    len: usize,
    places: [u16; 2048],
}

impl Model for Members {
    ghost Value = { List ℕ };

    ghost view = { λ m. take m.len m.places };

    ghost invariant = { λ m. m.len ≤ 2048 };
}

impl Members {
    pub fn new() -> Members
        ensures { result ≡ [] }
    {
        Members {
            len: 0,
            places: [0; 2048],
        }
    }

    pub fn clear(&mut self)
        ensures { self.new ≡ [] }
    {
        self.len = 0;
    }

    pub fn push(&mut self, place: u16)
        requires { length self.old < 2048 }
        ensures { self.new ≡ self.old ++ place ∷ [] }
    {
        self.places[self.len] = place;
        self.len += 1;
    }

    pub fn len(&self) -> usize
        ensures { result ≡ length self.now }
    {
        self.len
    }

    pub fn as_slice(&self) -> &[u16]
        ensures value { result.now ≡ self.now }
        ensures fits { length result.now ≤ 2048 }
    {
        &self.places[..self.len]
    }
}
