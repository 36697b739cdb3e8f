//! Making a ring, and what goes in and out of it.
ghost use Rattle.std.specs.Prelude.{◌≡◌, min, [], length, take};
ghost use Rattle.ring.specs.Ring.{held, places, Pushes, Shows, Pops};

use super::places::place_after;
use super::{MOST_PLACES, Ring};
use cell::refusal::Refusal;

impl<'a, T: Copy> Ring<'a, T> {
    /// An empty ring in the places lent, or in the first 1,024 of them where there are more.
    #[tactic(auto, using(crate::proofs::Windows::making))]
    pub fn new(slots: &'a mut [T]) -> Ring<'a, T>
        ensures empty { held result ≡ [] }
        ensures places { places result ≡ min (length slots.old) 1024 }
        ensures first { result.slots.now ≡ take 1024 slots.old }
    {
        let used = slots.len().min(MOST_PLACES);
        Ring {
            slots: &mut slots[..used],
            first: 0,
            count: 0,
        }
    }

    /// Puts an element behind all others. Refused while no place is free.
    pub fn push(&mut self, x: T) -> Result<(), Refusal>
        ensures { Pushes self.old x result self.new }
    {
        if self.is_full() {
            return Err(Refusal::NoSpace);
        }
        let at = place_after(self.first, self.count, self.slots.len());
        self.slots[at] = x;
        self.count += 1;
        Ok(())
    }

    /// The oldest element. Refused while none is held.
    #[tactic(auto, using(crate::proofs::Windows::looking))]
    pub fn front(&self) -> Result<T, Refusal>
        ensures { Shows self.now result }
    {
        if self.is_empty() {
            return Err(Refusal::NoneWaiting);
        }
        Ok(self.slots[self.first])
    }

    /// Takes the oldest element out. Refused while none is held.
    pub fn pop(&mut self) -> Result<T, Refusal>
        ensures { Pops self.old result self.new }
    {
        let x = self.front()?;
        self.first = place_after(self.first, 1, self.slots.len());
        self.count -= 1;
        Ok(x)
    }
}
