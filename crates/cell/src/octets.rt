//! The octets of a cell.
ghost use Rattle.std.specs.Prelude.{◌≡◌, ◌++◌, drop};
ghost use Rattle.cell.specs.Header.{header_of, header_octets};

use crate::header::Header;
use crate::sizes::{CELL_OCTETS, HEADER_OCTETS, PAYLOAD_OCTETS};

/// The 52 octets of a cell: four of the header, the most significant first, and 48 of the payload.
pub fn cell_octets(header: Header, payload: &[u8; PAYLOAD_OCTETS]) -> [u8; CELL_OCTETS]
    ensures { result ≡ header_octets header.0 ++ payload.now }
{
    let front: [u8; HEADER_OCTETS] = header.into();
    let mut octets = [0; CELL_OCTETS];
    octets[..HEADER_OCTETS].copy_from_slice(&front);
    octets[HEADER_OCTETS..].copy_from_slice(payload);
    octets
}

/// The header and the payload that the 52 octets of a cell are: undoes `cell_octets`.
#[tactic(auto, using(crate::proofs::Payloads::payload_part))]
pub fn cell_parts(octets: &[u8; CELL_OCTETS]) -> (Header, [u8; PAYLOAD_OCTETS])
    ensures header { result.0.0 ≡ header_of octets.now }
    ensures payload { result.1 ≡ drop 4 octets.now }
{
    let [a, b, c, d, ..] = *octets;
    let mut payload = [0; PAYLOAD_OCTETS];
    payload.copy_from_slice(&octets[HEADER_OCTETS..]);
    (Header::from([a, b, c, d]), payload)
}
