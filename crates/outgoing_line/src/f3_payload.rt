//! The payload of F3 cells, as an input gives it.
ghost use Rattle.std.specs.Prelude.{◌≡◌};
ghost use Rattle.outgoing_line.specs.F3Payload.{PayloadAnswer, error_text};
ghost use Rattle.outgoing_line.specs.declared.f3_payload.PayloadError.TheVariants.{Unread};

use cell::sizes::PAYLOAD_OCTETS;
use command_line::input::fill;
use std::io::Read;
use std::{fmt, io};

/// Why an input gives no payload.
#[derive(Debug, Drop)]
pub enum PayloadError {
    /// it cannot be read
    Unread(io::Error),
    /// it is not of 48 octets
    WrongLength,
}

impl From<io::Error> for PayloadError {
    ghost from_gives = { λ error e. e ≡ Unread error };

    fn from(error: io::Error) -> PayloadError {
        PayloadError::Unread(error)
    }
}

/// The payload that is all that is left of an input.
#[tactic(auto, using(crate::proofs::Payloads::payload_whole, crate::proofs::Payloads::payload_other))]
pub fn read<R: Read>(input: &mut R) -> Result<[u8; PAYLOAD_OCTETS], PayloadError>
    ensures { PayloadAnswer (R.remaining input.old) result }
{
    // One place more than a payload has, so that a longer input shows.
    let mut place = [0u8; PAYLOAD_OCTETS + 1];
    let octets = fill(input, &mut place)?;
    place[..octets]
        .try_into()
        .map_err(|_| PayloadError::WrongLength)
}

impl fmt::Display for PayloadError {
    ghost output = { error_text };

    fn fmt<W: fmt::Write>(&self, f: &mut fmt::Formatter<W>) -> fmt::Result {
        match self {
            PayloadError::Unread(error) => write!(f, "the F3 payload cannot be read: {error}"),
            PayloadError::WrongLength => f.write_str("the F3 payload is not of 48 octets"),
        }
    }
}
