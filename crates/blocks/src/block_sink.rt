//! A block of octets as a sink. Its calls stand in a module of their own, since their contracts name it.
ghost use Rattle.std.specs.Prelude.{◌*◌, ◌≤◌, length};

use cell::header::Header;

mod calls;
mod places;

/// A block sink fills no more payload places than this.
pub const MOST_PAYLOADS: usize = 1365;

/// A lent block that takes the payloads of one header, in order.
#[derive(Drop)]
pub struct BlockSink<'a> {
    block: &'a mut [u8],
    header: Header,
    // how many payload places are filled: the block is lent, and what the sink holds is read from these places of it
    filled: usize,
    ghost small: { length block.now ≤ 65520 },
    ghost within: { 48 * filled ≤ length block.now },
}
