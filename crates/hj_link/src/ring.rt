//! The ring of slots of a direction.
ghost use Rattle.std.specs.Prelude.{◌≡◌, ℕ, ◌+◌, ◌%◌, ◌<◌};

/// The ring of slots of a direction, and a place in it.
#[derive(Clone, Copy)]
pub struct Ring {
    pub first: usize,
    pub capacity: usize,
    // the place of the next put, or of the next take
    pub next: usize,
}

impl Ring {
    pub(crate) fn new(first: usize, capacity: usize) -> Ring
        ensures { (result.first ≡ first) × (result.capacity ≡ capacity) × (result.next ≡ 0) }
    {
        Ring {
            first,
            capacity,
            next: 0,
        }
    }

    // Returns the place after this one.
    #[inline(always)]
    pub(crate) fn following(&self) -> Ring
        requires { self.now.next < self.now.capacity }
        ensures ring { (result.first ≡ self.now.first) × (result.capacity ≡ self.now.capacity) }
        ensures next { (n : ℕ) → self.now.next ≡ n % self.now.capacity → result.next ≡ (n + 1) % self.now.capacity }
    {
        Ring {
            first: self.first,
            capacity: self.capacity,
            next: after(self.next, self.capacity),
        }
    }
}

#[inline(always)]
fn after(place: usize, capacity: usize) -> usize
    requires { place < capacity }
    ensures { (n : ℕ) → place ≡ n % capacity → result ≡ (n + 1) % capacity }
{
    if place + 1 == capacity { 0 } else { place + 1 }
}
