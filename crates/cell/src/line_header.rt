//! The first five octets of a cell as a line carries them, and what to make of them.
ghost use Rattle.std.specs.Prelude.{◌≡◌, Some};
ghost use Rattle.cell.specs.LineHeader.{bits40, of_bits, syndrome_of, turned, line_text, OneTold, TwoPast, Restored};
ghost use Rattle.cell.specs.Verdict.{verdict_of, place};

use crate::header::Header;
use crate::sizes::{HEADER_OCTETS, LINE_HEADER_BITS};
use crate::verdict::Verdict;
use std::fmt;

/// A header, and what came in the place of its check octet.
#[derive(Clone, Copy, Debug, PartialEq, Eq, Hash)]
pub struct LineHeader {
    pub header: Header,
    pub hec: u8,
}

impl LineHeader {
    /// The header of the low 40 bits of a word, the first sent on top. No From, since the bits above them are let go.
    pub fn from_bits(word: u64) -> LineHeader
        ensures { result ≡ of_bits word }
    {
        LineHeader {
            header: Header(((word >> 8) % 0x1_0000_0000) as u32),
            hec: (word % 0x100) as u8,
        }
    }

    /// The 40 bits as a word, the first sent on top; `from_bits` undoes it.
    pub fn to_bits(self) -> u64
        ensures { result ≡ bits40 self }
    {
        u64::from(self.header.0) * 0x100 + u64::from(self.hec)
    }

    /// The check octet of the header against what came in its place: 0 where they are the same.
    pub fn syndrome(self) -> u8
        ensures { result ≡ syndrome_of self }
    {
        self.header.check_octet() ^ self.hec
    }

    /// The verdict on the 40 bits. One wrong bit is told, and two are found out.
    #[tactic(auto, using(crate::proofs::WrongBits::told, crate::proofs::WrongBits::past))]
    pub fn judge(self) -> Verdict
        ensures value { result ≡ verdict_of (syndrome_of self) }
        ensures one { OneTold (bits40 self) result }
        ensures two { TwoPast (bits40 self) result }
    {
        Verdict::from(self.syndrome())
    }

    /// The 40 bits with one bit turned: 0, the first sent, to 39; any other number names none.
    pub fn mend(self, bit: u8) -> LineHeader
        ensures value { result ≡ of_bits (turned (bits40 self) bit) }
        ensures restored { Restored (bits40 self) bit (bits40 result) }
    {
        LineHeader::from_bits(self.to_bits() ^ place(bit))
    }
}

// The five octets as they stand on the line.
impl fmt::Display for LineHeader {
    ghost output = { λ l. Some (line_text l) };

    #[tactic(auto, using(std::proofs::lemmas::Fmt::hex_byte))]
    fn fmt<W: fmt::Write>(&self, f: &mut fmt::Formatter<W>) -> fmt::Result {
        let LineHeader { header, hec } = *self;
        let [a, b, c, d]: [u8; HEADER_OCTETS] = header.into();
        write!(f, "{a:02X} {b:02X} {c:02X} {d:02X} {hec:02X}")
    }
}

// One bit alone of 40.
fn place(bit: u8) -> u64
    ensures { result ≡ place bit }
{
    if bit < LINE_HEADER_BITS {
        0x80_0000_0000 >> bit
    } else {
        0
    }
}
