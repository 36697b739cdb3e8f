//! Coding a cell at a phase.
ghost use Rattle.std.specs.Prelude.{◌≡◌, ◌∷◌, ◌++◌};
ghost use Rattle.scrambler.specs.Coding.{coded_header, header_octets, coded, decoded, CarriesSamples, CodeAnswer};

use crate::generator::check_phase;
use crate::payload::mask_payload;
use crate::samples::{header_mask, predicted_samples};
use cell::header::Header;
use cell::line_header::LineHeader;
use cell::octets::cell_parts;
use cell::refusal::Refusal;
use cell::sizes::{CELL_OCTETS, HEADER_OCTETS, LINE_HEADER_OCTETS, LINE_OCTETS, PAYLOAD_OCTETS};

/// A header as the line carries it: scrambled, with a check octet that carries two samples of the generator. Of a phase above
/// 2^31 - 1 the low 31 bits count.
#[tactic(auto, using(crate::proofs::Codes::made_carries, crate::proofs::Masks::ago_lt, crate::proofs::Masks::sample7_lt))]
pub fn code_header(header: Header, phase: u32) -> LineHeader
    ensures value { result ≡ coded_header header.0 phase }
    ensures samples { CarriesSamples result phase }
{
    let scrambled = Header(header.0 ^ header_mask(phase));
    LineHeader {
        header: scrambled,
        hec: scrambled.check_octet() ^ predicted_samples(phase),
    }
}

/// The 53 octets of a cell at a phase. Of a phase above 2^31 - 1 the low 31 bits count.
#[tactic(auto, using(crate::proofs::Codes::decoded_coded), unfolding(crate::specs::Coding::coded))]
pub fn code_octets(cell: &[u8; CELL_OCTETS], phase: u32) -> [u8; LINE_OCTETS]
    ensures written { result ≡ coded phase cell.now }
    ensures back { decoded phase result ≡ cell.now }
{
    let (header, mut payload) = cell_parts(cell);
    mask_payload(phase, &mut payload);
    line_octets(code_header(header, phase), &payload)
}

// A header on the line, its check octet and a payload behind it.
fn line_octets(header: LineHeader, payload: &[u8; PAYLOAD_OCTETS]) -> [u8; LINE_OCTETS]
    ensures { result ≡ header_octets header.header.0 ++ header.hec ∷ payload.now }
{
    let front: [u8; HEADER_OCTETS] = header.header.into();
    let mut line = [0; LINE_OCTETS];
    line[..HEADER_OCTETS].copy_from_slice(&front);
    line[HEADER_OCTETS] = header.hec;
    line[LINE_HEADER_OCTETS..].copy_from_slice(payload);
    line
}

/// Writes the 53 octets of a cell of 52 octets at a phase. Refuses other lengths, then a phase of 0 or above 2^31 - 1; the
/// place is then as it was.
pub fn code_cell(cell: &[u8], phase: u32, place: &mut [u8]) -> Result<(), Refusal>
    ensures { CodeAnswer cell.now phase place.old result place.new }
{
    let cell = cell.as_array().ok_or(Refusal::WrongLength)?;
    let place = place.as_mut_array().ok_or(Refusal::WrongLength)?;
    check_phase(phase)?;
    *place = code_octets(cell, phase);
    Ok(())
}
