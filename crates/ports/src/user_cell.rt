//! The record of a user cell. Its calls stand in a module of their own, since their contracts name it.
ghost use Rattle.std.specs.Prelude.{◌≡◌, ◌^◌, ◌<◌, false, length};
ghost use Rattle.cell.specs.Header.{reserved};

use cell::header::Header;
use cell::sizes::PAYLOAD_OCTETS;

mod calls;

/// A user cell: no value carries a reserved header.
#[derive(Clone, Copy, Debug, PartialEq, Eq)]
pub struct UserCell {
    header: Header,
    payload: [u8; PAYLOAD_OCTETS],
    ghost fits: { header.0 < 2 ^ 32 },
    ghost user: { reserved header.0 ≡ false },
    ghost whole: { length payload ≡ 48 },
}
