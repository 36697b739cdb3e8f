//! How many octets and bits a cell and its parts have.

/// The header without its check octet.
pub const HEADER_OCTETS: usize = 4;

/// The payload.
pub const PAYLOAD_OCTETS: usize = 48;

/// Header and payload, as sources, sinks and sorting have them.
pub const CELL_OCTETS: usize = 52;

/// A cell on the line, with its check octet.
pub const LINE_OCTETS: usize = 53;

/// A cell on the line, in bits.
pub const LINE_BITS: usize = 424;

/// A header on the line, with its check octet.
pub const LINE_HEADER_OCTETS: usize = 5;

/// A header on the line, in bits.
pub const LINE_HEADER_BITS: u8 = 40;
