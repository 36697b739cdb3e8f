//! Making a block sink, and putting payloads into it.
ghost use Rattle.std.specs.Prelude.{◌≡◌, ◌+◌, ◌*◌, ◌/◌, ◌<◌, ◌≤◌, min, length, take};
ghost use Rattle.blocks.specs.BlockSink.{sink_state, block_state, block_bounded, Stores};
ghost use Rattle.std.proofs.Math.Seq.{paste};
ghost use Rattle.ports.specs.Sink.{PutAnswer};

use super::{BlockSink, MOST_PAYLOADS};
use cell::header::Header;
use cell::refusal::Refusal;
use cell::sizes::PAYLOAD_OCTETS;
use ports::checks::user_payload;
use ports::sink::Sink;

impl<'a> BlockSink<'a> {
    /// An empty sink over every whole payload place of a block, up to the first 1,365. Under a reserved header it accepts nothing.
    #[tactic(auto, using(crate::proofs::Cuts::taking))]
    pub fn new(header: Header, block: &'a mut [u8]) -> BlockSink<'a>
        ensures state { block_state result ≡ sink_state header.0 (take 65520 block.old) 0 }
        ensures octets { result.block.now ≡ take 65520 block.old }
        ensures places { length result.block.now / 48 ≡ min (length block.old / 48) 1365 }
    {
        let used = block.len().min(PAYLOAD_OCTETS * MOST_PAYLOADS);
        BlockSink {
            block: &mut block[..used],
            header,
            filled: 0,
        }
    }

    // Writes a payload into the first place that is not filled.
    #[tactic(auto, using(crate::proofs::Places::storing))]
    fn store(&mut self, payload: &[u8; PAYLOAD_OCTETS])
        requires { self.old.filled < length self.old.block.now / 48 }
        ensures header { self.new.header.0 ≡ self.old.header.0 }
        ensures filled { self.new.filled ≡ self.old.filled + 1 }
        ensures lent { self.new.block.ghost_name ≡ self.old.block.ghost_name }
        ensures block { self.new.block.now ≡ paste self.old.block.now (48 * self.old.filled) payload.now 48 }
    {
        let at = PAYLOAD_OCTETS * self.filled;
        let block = &mut *self.block;
        block[at..at + PAYLOAD_OCTETS].copy_from_slice(payload);
        self.filled += 1;
    }
}

impl Sink for BlockSink<'_> {
    ghost state = { block_state };

    ghost bounded = { block_bounded };

    fn put(&mut self, header: Header, payload: &[u8]) -> Result<(), Refusal>
        ensures answer { PutAnswer (block_state self.old) header.0 payload.now result (block_state self.new) }
        ensures octets { Stores self.old payload.now result self.new }
    {
        let payload = user_payload(header, payload)?;
        if header != self.header {
            return Err(Refusal::NotServed);
        }
        if self.is_full() {
            return Err(Refusal::NoSpace);
        }
        self.store(payload);
        Ok(())
    }
}
