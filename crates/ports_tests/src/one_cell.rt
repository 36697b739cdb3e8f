//! A source written by hand: it holds one cell, or none.
ghost use Rattle.ports_tests.specs.ByHand.{cell_in, users_in};

use cell::refusal::Refusal;
use ports::checks::check_place;
use ports::source::{CountedSource, Source};
use ports::user_cell::UserCell;

/// The cell that waits, if one does.
#[derive(Clone, Copy)]
pub struct OneCell {
    pub slot: Option<UserCell>,
}

impl Source for OneCell {
    ghost waiting = { λ s. cell_in s.slot };

    ghost users = { λ s. users_in s.slot };

    fn look(&self, place: &mut [u8]) -> Result<(), Refusal> {
        check_place(place)?;
        let cell = self.slot.ok_or(Refusal::NoneWaiting)?;
        place.copy_from_slice(&cell.octets());
        Ok(())
    }

    fn take(&mut self, place: &mut [u8]) -> Result<(), Refusal> {
        check_place(place)?;
        let cell = self.slot.take().ok_or(Refusal::NoneWaiting)?;
        place.copy_from_slice(&cell.octets());
        Ok(())
    }
}

impl CountedSource for OneCell {
    fn count(&self) -> u32 {
        u32::from(self.slot.is_some())
    }
}
