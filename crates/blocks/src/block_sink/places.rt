//! The payload places of a block sink: how many there are, and how many are filled.
ghost use Rattle.std.specs.Prelude.{◌≡◌, ◌/◌, length, nat_le};

use super::BlockSink;
use cell::sizes::PAYLOAD_OCTETS;

impl<'a> BlockSink<'a> {
    /// How many payload places are filled.
    pub fn payloads(&self) -> usize
        ensures { result ≡ self.now.filled }
    {
        self.filled
    }

    pub(super) fn is_full(&self) -> bool
        ensures { result ≡ nat_le (length self.now.block.now / 48) self.now.filled }
    {
        self.block.len() / PAYLOAD_OCTETS <= self.payloads()
    }
}
