//! What sources and sinks check of the places and payloads that they are passed.
ghost use Rattle.std.specs.Prelude.{◌≡◌, length, MatchResult};
ghost use Rattle.ports.specs.UserCell.{IsUserPayload, MakeWhy, WriteWhy};

use cell::header::Header;
use cell::refusal::Refusal;
use cell::sizes::{CELL_OCTETS, PAYLOAD_OCTETS};

/// A cell is written into a place of 52 octets. Refuses another length.
pub fn check_place(place: &[u8]) -> Result<(), Refusal>
    ensures { MatchResult result (λ _. length place.now ≡ 52) (λ e. WriteWhy place.now e) }
{
    if place.len() != CELL_OCTETS {
        return Err(Refusal::WrongLength);
    }
    Ok(())
}

/// The payload of a user cell under a header. Refuses a payload not of 48 octets, and a reserved header.
pub fn user_payload(header: Header, payload: &[u8]) -> Result<&[u8; PAYLOAD_OCTETS], Refusal>
    ensures { MatchResult result (λ p. IsUserPayload header.0 payload.now p.now) (λ e. MakeWhy header.0 payload.now e) }
{
    let payload = payload.as_array().ok_or(Refusal::WrongLength)?;
    if header.is_reserved() {
        return Err(Refusal::ReservedHeader);
    }
    Ok(payload)
}
