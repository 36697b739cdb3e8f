//! Making a user cell, and writing it out.
ghost use Rattle.std.specs.Prelude.{◌≡◌, replicate};
ghost use Rattle.ports.specs.Cell.{Cell, octets};
ghost use Rattle.ports.specs.UserCell.{cell_of, Makes, Writes};

use super::UserCell;
use crate::checks::{check_place, user_payload};
use cell::header::Header;
use cell::octets::cell_octets;
use cell::refusal::Refusal;
use cell::sizes::{CELL_OCTETS, PAYLOAD_OCTETS};

impl UserCell {
    /// A cell of this header and payload. Refuses a payload not of 48 octets, and a reserved header.
    pub fn new(header: Header, payload: &[u8]) -> Result<UserCell, Refusal>
        ensures { Makes header.0 payload.now result }
    {
        let payload = *user_payload(header, payload)?;
        Ok(UserCell { header, payload })
    }

    /// A cell of zeros, for places that no cell has come to yet. It is no default, since its name says what the zeros stand for.
    pub fn blank() -> UserCell
        ensures { cell_of result ≡ record { header = 0; payload = replicate 48 0 } }
    {
        UserCell {
            header: Header(0),
            payload: [0; PAYLOAD_OCTETS],
        }
    }

    /// The 52 octets of the cell.
    pub fn octets(&self) -> [u8; CELL_OCTETS]
        ensures { result ≡ octets (cell_of self.now) }
    {
        cell_octets(self.header, &self.payload)
    }

    /// Writes the 52 octets of the cell. Refuses a place of another length.
    pub fn write(&self, place: &mut [u8]) -> Result<(), Refusal>
        ensures { Writes self.now place.old result place.new }
    {
        check_place(place)?;
        place.copy_from_slice(&self.octets());
        Ok(())
    }
}
