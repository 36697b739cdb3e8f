//! How many elements a ring holds, how many it can hold, and which place comes next.
#![tactic(auto, using(crate::proofs::Windows::counting))]

ghost use Rattle.std.specs.Prelude.{◌≡◌, ◌+◌, ◌<◌, ◌≤◌, ◌↔◌, [], length, IsTrue};
ghost use Rattle.ring.specs.Ring.{held, places};
ghost use Rattle.ring.specs.Window.{around};

use super::Ring;

impl<'a, T: Copy> Ring<'a, T> {
    /// How many elements are held. The bound is said here too, for callers, who see no field.
    pub fn len(&self) -> usize
        ensures value { result ≡ length (held self.now) }
        ensures small { result ≤ 1024 }
    {
        self.count
    }

    /// How many elements it can hold.
    pub fn places(&self) -> usize
        ensures value { result ≡ places self.now }
        ensures small { result ≤ 1024 }
    {
        self.slots.len()
    }

    /// No element is held.
    pub fn is_empty(&self) -> bool
        ensures { IsTrue result ↔ (held self.now ≡ []) }
    {
        self.len() == 0
    }

    /// No place is free.
    pub fn is_full(&self) -> bool
        ensures { IsTrue result ↔ (length (held self.now) ≡ places self.now) }
    {
        self.len() == self.places()
    }
}

// The place that lies `steps` after another, the first one coming after the last.
pub(super) fn place_after(at: usize, steps: usize, places: usize) -> usize
    requires at { at < places }
    requires steps { steps ≤ places }
    requires few { places ≤ 1024 }
    ensures value { result ≡ around places (at + steps) }
    ensures inside { result < places }
{
    let next = at + steps;
    if next < places { next } else { next - places }
}
