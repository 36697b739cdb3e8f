//! Making a block source, and taking its cells.
ghost use Rattle.std.specs.Prelude.{◌≡◌, min, drop, if◌then◌else◌};
ghost use Rattle.cell.specs.Header.{reserved};
ghost use Rattle.blocks.specs.Block.{payload_at};
ghost use Rattle.blocks.specs.BlockSource.{block_cells, block_users, source_of};

use super::{BlockSource, MOST_OCTETS};
use cell::header::Header;
use cell::octets::cell_octets;
use cell::refusal::Refusal;
use cell::sizes::PAYLOAD_OCTETS;
use ports::checks::check_place;
use ports::source::{CountedSource, Source};

impl<'a> BlockSource<'a> {
    /// The payloads of a block, at most of its first 65,536 octets, the last filled with zeros. Under a reserved header there are none.
    #[tactic(auto, using(crate::proofs::Cuts::cut))]
    pub fn new(header: Header, block: &'a [u8]) -> BlockSource<'a>
        ensures { block_cells result ≡ source_of header.0 block.now }
    {
        let used = octets_used(header, block.len());
        BlockSource {
            rest: &block[..used],
            header,
        }
    }

    // Goes on to the next payload.
    #[tactic(auto, using(crate::proofs::Cuts::left_over))]
    fn pass(&mut self)
        ensures header { self.new.header.0 ≡ self.old.header.0 }
        ensures rest { self.new.rest.now ≡ drop 48 self.old.rest.now }
    {
        let rest = self.rest;
        let used = rest.len().min(PAYLOAD_OCTETS);
        self.rest = &rest[used..];
    }
}

impl Source for BlockSource<'_> {
    ghost waiting = { block_cells };

    ghost users = { block_users };

    fn look(&self, place: &mut [u8]) -> Result<(), Refusal> {
        check_place(place)?;
        if self.rest.is_empty() {
            return Err(Refusal::NoneWaiting);
        }
        place.copy_from_slice(&cell_octets(self.header, &first_payload(self.rest)));
        Ok(())
    }

    fn take(&mut self, place: &mut [u8]) -> Result<(), Refusal> {
        Self::look(self, place)?;
        self.pass();
        Ok(())
    }
}

impl CountedSource for BlockSource<'_> {
    #[tactic(auto, using(crate::proofs::Cuts::cells_counted))]
    fn count(&self) -> u32 {
        self.rest.len().div_ceil(PAYLOAD_OCTETS) as u32
    }
}

// How many octets of a block are used under a header.
fn octets_used(header: Header, lent: usize) -> usize
    ensures { result ≡ (if reserved header.0 then 0 else min lent 65536) }
{
    if header.is_reserved() {
        0
    } else {
        lent.min(MOST_OCTETS)
    }
}

// The first payload of a block, filled with zeros where the block ends.
#[tactic(auto, using(crate::proofs::Cuts::first_of))]
fn first_payload(block: &[u8]) -> [u8; PAYLOAD_OCTETS]
    ensures { result ≡ payload_at block.now 0 }
{
    let used = block.len().min(PAYLOAD_OCTETS);
    let mut payload = [0; PAYLOAD_OCTETS];
    payload[..used].copy_from_slice(&block[..used]);
    payload
}
