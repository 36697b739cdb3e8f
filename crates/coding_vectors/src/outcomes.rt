//! What a case leads to, and how it is written.
ghost use Rattle.std.specs.Prelude.{◌≡◌, length, drop, Decides, bit_xor};
ghost use Rattle.cell.specs.Sorting.{header_of};
ghost use Rattle.scrambler.specs.Coding.{header_mask, masked};
ghost use Rattle.scrambler.specs.Generator.{next_phase};
ghost use Rattle.coding_vectors.specs.Outcomes.{header_right, ComesBack, CellOutcome, Answers};

use crate::cases::Case;
use cell::header::Header;
use cell::line_header::LineHeader;
use cell::refusal::Refusal;
use cell::sizes::{HEADER_OCTETS, LINE_HEADER_OCTETS, LINE_OCTETS, PAYLOAD_OCTETS};
use cell::verdict::agrees;
use hex_digits::digits::Hex;
use scrambler::coding::code_cell;
use scrambler::finder::find_phase;
use scrambler::generator::next_phase;
use scrambler::payload::mask_payload;
use scrambler::samples::{header_mask, predicted_samples};
use std::fmt;

/// What came of a case that was not refused.
#[derive(Drop)]
pub enum Outcome {
    /// the cell on the line
    Line {
        octets: [u8; LINE_OCTETS],
        // the phase of the next cell
        next: u32,
        // decoding gives the cell again
        same: bool,
        // the header agrees, and its syndrome is the two samples
        agrees: bool,
    },
    /// the phase found
    Phase(u32),
    /// the phase of the next cell
    Next(u32),
}

/// Runs a case on the library.
pub fn run(case: &Case) -> Result<Outcome, Refusal>
    ensures { Answers case.now result }
{
    match case {
        Case::Cell(phase, octets) => code(octets.as_slice(), *phase),
        Case::Find(word) => find_phase(*word).map(Outcome::Phase),
        Case::Next(phase) => Ok(Outcome::Next(next_phase(*phase))),
    }
}

// Codes a cell, and looks whether it comes back.
fn code(cell: &[u8], phase: u32) -> Result<Outcome, Refusal>
    ensures { CellOutcome cell.now phase result }
{
    let mut octets = [0u8; LINE_OCTETS];
    code_cell(cell, phase, &mut octets)?;
    Ok(Outcome::Line {
        octets,
        next: next_phase(phase),
        same: comes_back(cell, phase, &octets),
        agrees: header_right(&octets, phase),
    })
}

// The header and the payload of a cell on the line, descrambled, are those of the cell.
fn comes_back(cell: &[u8], phase: u32, line: &[u8; LINE_OCTETS]) -> bool
    requires { length cell.now ≡ 52 }
    ensures { Decides result (ComesBack cell.now phase line.now) }
{
    let (header, payload) = cell.split_first_chunk::<HEADER_OCTETS>().unwrap();
    descramble_header(line, phase) == Header::from(*header)
        && descramble_payload(line, phase).as_slice() == payload
}

// The header of a cell on the line, descrambled. The octets and their phase go apart, as the library's calls take them.
fn descramble_header(line: &[u8; LINE_OCTETS], phase: u32) -> Header
    ensures { result.0 ≡ bit_xor (header_of line.now) (header_mask phase) }
{
    let &[a, b, c, d, ..] = line;
    Header(Header::from([a, b, c, d]).0 ^ header_mask(phase))
}

// The payload of a cell on the line, descrambled.
fn descramble_payload(line: &[u8; LINE_OCTETS], phase: u32) -> [u8; PAYLOAD_OCTETS]
    ensures { result ≡ masked 8 phase (drop 5 line.now) }
{
    let mut payload = [0u8; PAYLOAD_OCTETS];
    payload.copy_from_slice(&line[LINE_HEADER_OCTETS..]);
    mask_payload(phase, &mut payload);
    payload
}

// The header agrees, and its syndrome is the two samples of the phase.
fn header_right(line: &[u8; LINE_OCTETS], phase: u32) -> bool
    ensures { result ≡ header_right line.now phase }
{
    let &[a, b, c, d, hec, ..] = line;
    let header = Header::from([a, b, c, d]);
    let syndrome = LineHeader { header, hec }.syndrome();
    agrees(syndrome) && syndrome == predicted_samples(phase)
}

impl fmt::Display for Outcome {
    fn fmt<W: fmt::Write>(&self, f: &mut fmt::Formatter<W>) -> fmt::Result {
        match self {
            Outcome::Line {
                octets,
                next,
                same,
                agrees,
            } => {
                let octets = Hex(octets);
                let same = if *same { "same" } else { "differs" };
                let agrees = if *agrees { "agrees" } else { "disagrees" };
                write!(f, "line {octets} next {next:08x} {same} {agrees}")
            }
            Outcome::Phase(phase) => write!(f, "phase {phase:08x}"),
            Outcome::Next(phase) => write!(f, "next {phase:08x}"),
        }
    }
}
