//! Sources: where user cells wait, and those that tell how many.
ghost use Rattle.std.specs.Prelude.{◌≡◌, ℕ, min, List, length};
ghost use Rattle.std.specs.List.{AllByRecursion};
ghost use Rattle.ports.specs.Cell.{Cell, User};
ghost use Rattle.ports.specs.Source.{Looks, Takes};

use cell::refusal::Refusal;

/// Where user cells wait. It means the list of them, the one that goes first at its head.
pub trait Source {
    ghost waiting: { Self → List Cell };

    // each of them is a user cell: none has a reserved header
    ghost users: { (s : Self) → AllByRecursion User (waiting s) };

    /// Writes the first cell into a place of 52 octets. Refuses another length, and where none waits.
    fn look(&self, place: &mut [u8]) -> Result<(), Refusal>
        ensures { Looks (waiting self.now) place.old result place.new };

    /// Writes the first cell too, and removes it.
    fn take(&mut self, place: &mut [u8]) -> Result<(), Refusal>
        ensures { Takes (waiting self.old) place.old result place.new (waiting self.new) };
}

/// A source that tells how many cells wait.
pub trait CountedSource: Source {
    /// The number of waiting cells; it stops at 4,294,967,295.
    fn count(&self) -> u32
        ensures { result ≡ min (length (Self.Source.waiting self.now)) 4294967295 };
}
