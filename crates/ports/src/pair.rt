//! Two sources in a row.
ghost use Rattle.std.specs.Prelude.{◌++◌};
ghost use Rattle.ports.specs.Cell.{User};
ghost use Rattle.ports.specs.Pair.{PairTake};
ghost use Rattle.ports.specs.Source.{Takes};
ghost use Rattle.std.proofs.ByRecursion.{All-append};

use crate::source::{CountedSource, Source};
use cell::refusal::Refusal;

/// Two sources in a row: the cells of the first wait before those of the second.
#[derive(Drop)]
pub struct Pair<P, Q> {
    pub first: P,
    pub second: Q,
}

// Each call matches by itself: one goes behind a shared loan, the other behind one that may write.
impl<P: Source, Q: Source> Source for Pair<P, Q> {
    ghost waiting = { λ p. P.Source.waiting p.first ++ Q.Source.waiting p.second };

    ghost users = { λ p. All-append User _ _ (P.Source.users p.first) (Q.Source.users p.second) };

    fn look(&self, place: &mut [u8]) -> Result<(), Refusal> {
        match self.first.look(place) {
            Err(Refusal::NoneWaiting) => self.second.look(place),
            r => r,
        }
    }

    fn take(&mut self, place: &mut [u8]) -> Result<(), Refusal>
        ensures taken { Takes (P.Source.waiting self.old.first ++ Q.Source.waiting self.old.second) place.old result place.new (P.Source.waiting self.new.first ++ Q.Source.waiting self.new.second) }
        ensures parts { PairTake P.Source.waiting Q.Source.waiting self.old.first self.old.second place.old result place.new self.new.first self.new.second }
    {
        match self.first.take(place) {
            Err(Refusal::NoneWaiting) => self.second.take(place),
            r => r,
        }
    }
}

impl<P: CountedSource, Q: CountedSource> CountedSource for Pair<P, Q> {
    fn count(&self) -> u32 {
        self.first.count().saturating_add(self.second.count())
    }
}
