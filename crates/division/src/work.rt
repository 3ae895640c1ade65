ghost use Rattle.std.specs.Prelude.{◌≡◌, ℕ, ◌+◌, ◌<◌, [], ◌∷◌, ◌++◌, true, false, IfSome, IfNone, Some, slice_get, slice_set};
ghost use Rattle.arrayvec.specs.ArrayVec.{array_vec_len};
ghost use Rattle.division.specs.Working.{Waiting};

use arrayvec::ArrayVec;

// Places to grow from, in the order in which they are met. Each is met once.
#[derive(Drop)]
pub struct Work {
    places: ArrayVec<u16, 2048>,
    met: [bool; 2048],
    next: usize,
}

impl Work {
    // No place is met yet.
    pub fn new() -> Work
        ensures { (p : ℕ) → Waiting p result }
    {
        Work {
            places: ArrayVec::new(),
            met: [false; 2048],
            next: 0,
        }
    }

    // Has a place wait, unless it was met before.
    pub fn meet(&mut self, place: u16)
        requires { place < 2048 }
        ensures waiting { (p : ℕ) → place < p → Waiting p self.old → Waiting p self.new }
        ensures again { slice_get self.old.met place ≡ Some true → self.new ≡ self.old }
        ensures places { slice_get self.old.met place ≡ Some false → array_vec_len self.old.places < 2048 → self.new.places.items ≡ self.old.places.items ++ place ∷ [] }
        ensures met { slice_get self.old.met place ≡ Some false → array_vec_len self.old.places < 2048 → self.new.met ≡ slice_set self.old.met place true }
        ensures next { self.new.next ≡ self.old.next }
    {
        if !self.places.is_full() && !self.met[place as usize] {
            self.met[place as usize] = true;
            self.places.push(place);
        }
    }

    // The place that has waited longest, which then waits no more.
    pub fn next(&mut self) -> Option<u16>
        ensures waiting { (p : ℕ) → Waiting p self.old → Waiting p self.new }
        ensures known { (p : ℕ) → Waiting p self.old → IfSome result (λ v. v < p) }
        ensures value { result ≡ slice_get self.old.places.items self.old.next }
        ensures moved { IfSome result (λ v. self.new ≡ record self.old { next = self.old.next + 1 }) }
        ensures within { IfSome result (λ v. self.old.next < 2048) }
        ensures none { IfNone result (self.new ≡ self.old) }
    {
        let place = *self.places.as_slice().get(self.next)?;
        self.next += 1;
        Some(place)
    }
}
