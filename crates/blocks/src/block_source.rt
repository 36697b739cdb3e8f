//! A block of octets as a source. Its calls stand in a module of their own, since their contracts name it.
ghost use Rattle.std.specs.Prelude.{◌≡◌, ◌^◌, ◌<◌, ◌≤◌, true, length};
ghost use Rattle.cell.specs.Header.{reserved};

use cell::header::Header;

mod calls;

/// A block source uses no more octets of its block than this.
pub const MOST_OCTETS: usize = 65_536;

/// A lent block, cut into payloads under one header.
#[derive(Drop)]
pub struct BlockSource<'a> {
    // the octets that were not taken yet
    rest: &'a [u8],
    header: Header,
    ghost small: { length rest.now ≤ 65536 },
    ghost fits: { header.0 < 2 ^ 32 },
    ghost user: { (reserved header.0 ≡ true → length rest.now ≡ 0) },
}
