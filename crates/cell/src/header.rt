//! The header of a cell: its octets, its fields, its connection and the kind of cell that it heads.
ghost use Rattle.std.specs.Prelude.{◌≡◌, Some};
ghost use Rattle.cell.specs.Header.{header_of, header_octets, fields_of, joined, connection_of, kind_of, kind_name, kind_number, reserved};
ghost use Rattle.std.specs.Fmt.{padded};

use crate::sizes::HEADER_OCTETS;
use std::fmt;

/// The 32 header bits of a cell, as a number from the top.
#[derive(Clone, Copy, Debug, PartialEq, Eq, Hash)]
pub struct Header(pub u32);

// The header that four octets write, the most significant first.
impl From<[u8; HEADER_OCTETS]> for Header {
    ghost from_gives = { λ octets header. header.0 ≡ header_of octets };

    fn from(octets: [u8; HEADER_OCTETS]) -> Header {
        Header(u32::from_be_bytes(octets))
    }
}

impl From<Header> for [u8; HEADER_OCTETS] {
    ghost from_gives = { λ header octets. octets ≡ header_octets header.0 };

    fn from(header: Header) -> [u8; HEADER_OCTETS] {
        header.0.to_be_bytes()
    }
}

/// The fields of a header, from the top.
#[derive(Clone, Copy, Debug, PartialEq, Eq, Hash)]
pub struct Fields {
    /// generic flow control, 4 bits
    pub gfc: u8,
    /// virtual path identifier, 8 bits
    pub vpi: u8,
    /// virtual channel identifier, 16 bits
    pub vci: u16,
    /// payload type, 3 bits
    pub pt: u8,
    /// cell loss priority, 1 bit
    pub clp: u8,
}

/// What a cell is for, by its header alone. Each kind has the number by which a caller knows it.
#[derive(Clone, Copy, Debug, PartialEq, Eq, Hash)]
pub enum Kind {
    /// fills the line where nothing waits
    Idle = 0,
    /// maintenance of the transmission path
    F3 = 1,
    /// carries a user's payload
    User = 2,
}

impl Kind {
    /// The number by which a caller knows the kind.
    pub fn number(self) -> u8
        ensures { result ≡ kind_number self }
    {
        self as u8
    }
}

impl fmt::Display for Kind {
    ghost output = { λ kind. Some (kind_name kind) };

    ghost styled_output = { λ kind spec. Some (padded spec (kind_name kind)) };

    fn fmt<W: fmt::Write>(&self, f: &mut fmt::Formatter<W>) -> fmt::Result {
        f.pad(match self {
            Kind::Idle => "idle",
            Kind::F3 => "F3",
            Kind::User => "user",
        })
    }
}

impl Header {
    /// The header of idle cells.
    pub const IDLE: Header = Header(0x0000_0001);
    /// The header of F3 cells.
    pub const F3: Header = Header(0x0000_0009);

    /// The five fields; joined from the top they are the header again.
    #[tactic(auto, using(crate::proofs::Fields::joined_of))]
    pub fn fields(self) -> Fields
        ensures value { result ≡ fields_of self.0 }
        ensures whole { joined result ≡ self.0 }
    {
        let Header(word) = self;
        Fields {
            gfc: (word >> 28) as u8,
            vpi: ((word >> 20) % 0x100) as u8,
            vci: ((word >> 4) % 0x1_0000) as u16,
            pt: ((word >> 1) % 0x8) as u8,
            clp: (word % 0x2) as u8,
        }
    }

    /// The number of the connection: VPI × 65,536 + VCI.
    pub fn connection(self) -> u32
        ensures { result ≡ connection_of self.0 }
    {
        let Fields { vpi, vci, .. } = self.fields();
        u32::from(vpi) * 65_536 + u32::from(vci)
    }

    /// The kind of cell that this header heads.
    pub fn kind(self) -> Kind
        ensures { result ≡ kind_of self.0 }
    {
        match self {
            Self::IDLE => Kind::Idle,
            Self::F3 => Kind::F3,
            _ => Kind::User,
        }
    }

    /// No user cell carries this header.
    pub fn is_reserved(self) -> bool
        ensures { result ≡ reserved self.0 }
    {
        matches!(self.kind(), Kind::Idle | Kind::F3)
    }
}
