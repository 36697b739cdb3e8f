//! A ring of user cells as a source, counted, and as a sink.
ghost use Rattle.ports.specs.CellRing.{ring_cells, ring_users, ring_state, ring_bounded, RingPut, RingTake};
ghost use Rattle.ports.specs.Sink.{PutAnswer};
ghost use Rattle.ports.specs.Source.{Takes};

use crate::checks::check_place;
use crate::sink::Sink;
use crate::source::{CountedSource, Source};
use crate::user_cell::UserCell;
use cell::header::Header;
use cell::refusal::Refusal;
use ring::ring::Ring;

impl Source for Ring<'_, UserCell> {
    ghost waiting = { ring_cells };

    ghost users = { ring_users };

    fn look(&self, place: &mut [u8]) -> Result<(), Refusal> {
        check_place(place)?;
        place.copy_from_slice(&self.front()?.octets());
        Ok(())
    }

    fn take(&mut self, place: &mut [u8]) -> Result<(), Refusal>
        ensures answer { Takes (ring_cells self.old) place.old result place.new (ring_cells self.new) }
        ensures ring { RingTake self.old result self.new }
    {
        check_place(place)?;
        place.copy_from_slice(&self.pop()?.octets());
        Ok(())
    }
}

impl CountedSource for Ring<'_, UserCell> {
    fn count(&self) -> u32 {
        self.len() as u32
    }
}

// It serves all user headers; all connections share its free places.
impl Sink for Ring<'_, UserCell> {
    ghost state = { ring_state };

    ghost bounded = { ring_bounded };

    fn put(&mut self, header: Header, payload: &[u8]) -> Result<(), Refusal>
        ensures answer { PutAnswer (ring_state self.old) header.0 payload.now result (ring_state self.new) }
        ensures ring { RingPut self.old header.0 payload.now result self.new }
    {
        self.push(UserCell::new(header, payload)?)
    }
}
