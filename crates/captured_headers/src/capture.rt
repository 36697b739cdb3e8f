//! A line of a capture: the header that it spells, or why it spells none.
ghost use Rattle.std.specs.Prelude.{◌≡◌, Some, ◌-◌, ◌^◌, ◌<◌};
ghost use Rattle.captured_headers.specs.Capture.{Spelt, character_of, Reads, NoHeader};
ghost use Rattle.captured_headers.specs.Fault.{text_of};
ghost use Rattle.captured_headers.specs.Reading.{after, at_end};

use crate::character::Character;
use cell::line_header::LineHeader;
use cell::sizes::LINE_HEADER_OCTETS;
use std::fmt;

/// Why a line is no header. Columns count octets, from 1.
#[derive(Clone, Copy, Debug, PartialEq, Eq)]
pub enum Fault {
    /// the character in this column is no hexadecimal digit
    NotHex(usize),
    /// the octet in this column has one digit
    HalfOctet(usize),
    /// this many octets, fewer than a header has
    TooFew(usize),
    /// this many octets, more than a header has
    TooMany(usize),
}

impl fmt::Display for Fault {
    ghost output = { λ fault. Some (text_of fault) };

    fn fmt<W: fmt::Write>(&self, f: &mut fmt::Formatter<W>) -> fmt::Result {
        match *self {
            Fault::NotHex(column) => write!(f, "column {column} is no hexadecimal digit"),
            Fault::HalfOctet(column) => write!(f, "the octet in column {column} has one digit"),
            Fault::TooFew(octets) => write!(f, "too few octets, {octets} in place of 5"),
            Fault::TooMany(octets) => write!(f, "too many octets, {octets} in place of 5"),
        }
    }
}

/// The header that a line without its line end spells, as received; none where the line is nothing but blanks.
pub fn read(line: &[u8]) -> Result<Option<LineHeader>, Fault>
    ensures reads { Reads line.now result }
    ensures only { (s : Spelt) → Reads line.now s → s ≡ result }
    ensures malformed { (f : Fault) → result ≡ Err f → NoHeader line.now }
{
    let mut reading = Reading::default();
    for (before, octet) in line.iter().enumerate() {
        reading = reading.take(before, *octet)?;
    }
    reading.end(line.len())
}

// A line that is read character by character.
#[derive(Clone, Copy, Default)]
struct Reading {
    // whole octets so far
    octets: usize,
    // the last five of them, the first on top: the count is that of the whole line, so it is no length of this
    word: u64,
    // the first digit of an octet that lacks its second
    half: Option<u8>,
}

impl Reading {
    // Reads the character that stands after `before` others.
    fn take(self, before: usize, octet: u8) -> Result<Reading, Fault>
        requires before { before < 2 ^ 64 - 1 }
        requires octets { self.octets < 2 ^ 64 - 1 }
        ensures { result ≡ after self before (character_of octet) }
    {
        match (self.half, Character::from(octet)) {
            (None, Character::Blank) => Ok(self),
            (None, Character::Digit(high)) => Ok(Reading {
                half: Some(high),
                ..self
            }),
            (Some(high), Character::Digit(low)) => Ok(Reading {
                octets: self.octets + 1,
                word: self.word % 0x1_0000_0000 * 0x100 + u64::from(high) * 0x10 + u64::from(low),
                half: None,
            }),
            (Some(_), Character::Blank) => Err(Fault::HalfOctet(before)),
            (_, Character::Other) => Err(Fault::NotHex(before + 1)),
        }
    }

    // What the line spells where it ends after `before` characters.
    fn end(self, before: usize) -> Result<Option<LineHeader>, Fault>
        ensures { result ≡ at_end self before }
    {
        match (self.half, self.octets) {
            (Some(_), _) => Err(Fault::HalfOctet(before)),
            (None, 0) => Ok(None),
            (None, n) if n < LINE_HEADER_OCTETS => Err(Fault::TooFew(n)),
            (None, LINE_HEADER_OCTETS) => Ok(Some(LineHeader::from_bits(self.word))),
            (None, n) => Err(Fault::TooMany(n)),
        }
    }
}
