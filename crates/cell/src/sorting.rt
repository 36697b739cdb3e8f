//! Sorting a cell by its header.
ghost use Rattle.std.specs.Prelude.{◌≡◌};
ghost use Rattle.cell.specs.Sorting.{Sorts, SortsPartsAs};

use crate::header::{Header, Kind};
use crate::refusal::Refusal;
use crate::sizes::PAYLOAD_OCTETS;

/// A cell by its kind. The payload is the part of the cell's octets that begins at octet 4.
#[derive(Clone, Copy, Debug, PartialEq, Eq, Hash)]
pub enum SortedCell<'a> {
    Idle,
    F3(&'a [u8]),
    User(Header, &'a [u8]),
}

/// Sorts the 52 octets of a cell, four of the header and 48 of the payload. Refuses any other length.
pub fn sort_cell(octets: &[u8]) -> Result<SortedCell<'_>, Refusal>
    ensures { Sorts octets.entry result }
{
    let [a, b, c, d, payload @ ..] = octets else {
        return Err(Refusal::WrongLength);
    };
    if payload.len() != PAYLOAD_OCTETS {
        return Err(Refusal::WrongLength);
    }
    Ok(sort(Header::from([*a, *b, *c, *d]), payload))
}

/// Sorts a cell whose header and payload are already told apart. The payload may be any slice: an array would ask more of callers.
pub fn sort(header: Header, payload: &[u8]) -> SortedCell<'_>
    ensures { SortsPartsAs header.0 payload.entry result }
{
    match header.kind() {
        Kind::Idle => SortedCell::Idle,
        Kind::F3 => SortedCell::F3(payload),
        Kind::User => SortedCell::User(header, payload),
    }
}
