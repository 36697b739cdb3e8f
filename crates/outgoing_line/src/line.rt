//! The line as it goes out: the sending end, its phase, and what was sent so far.
ghost use Rattle.std.specs.Prelude.{◌≡◌, MatchResult, OnOk};
ghost use Rattle.blocks.specs.BlockSource.{source_of};
ghost use Rattle.scrambler.specs.Generator.{Running};
ghost use Rattle.sender.specs.Sender.{fresh, started, with_f3, StartWhy};
ghost use Rattle.outgoing_line.specs.Tally.{none, counted_octets};
ghost use Rattle.outgoing_line.specs.Sending.{CellSent, UnusedSent, WaitingSent};

use crate::summary::Summary;
use crate::tally::Tally;
use blocks::block_source::BlockSource;
use cell::header::Header;
use cell::refusal::Refusal;
use cell::sizes::PAYLOAD_OCTETS;
use ports::source::{CountedSource, Source};
use sender::sender::Sender;
use std::io;
use std::io::Write;

/// A line as it goes out: the sending end, and the counts.
#[derive(Drop)]
pub struct Line {
    sender: Sender,
    tally: Tally,
}

impl Line {
    /// A line whose first cell has this phase. Refuses a phase of 0 or above 2^31 - 1.
    pub fn start(phase: u32) -> Result<Line, Refusal>
        ensures { MatchResult result (λ l. Running phase × (l.sender ≡ started fresh phase) × (l.tally ≡ none)) (λ e. StartWhy phase e) }
    {
        let mut sender = Sender::new();
        sender.start(phase)?;
        Ok(Line {
            sender,
            tally: Tally::default(),
        })
    }

    /// Sets the payload of the F3 cells that go out from now on.
    pub fn set_f3(&mut self, payload: &[u8; PAYLOAD_OCTETS])
        ensures sender { self.new.sender ≡ with_f3 self.old.sender payload.now }
        ensures same { self.new.tally ≡ self.old.tally }
    {
        let Ok(()) = self.sender.set_f3(payload) else {
            unreachable!()
        };
    }

    /// Sends so many cells while no user cell waits, and writes out their octets. Where a write fails, nothing is said of the line after it.
    #[tactic(auto, using(crate::proofs::Sendings::unused_begun, crate::proofs::Sendings::unused_sent))]
    pub fn send_unused<W: Write>(&mut self, cells: u32, out: &mut W) -> io::Result<()>
        ensures { OnOk result (UnusedSent cells self.old (W.contents out.old) self.new (W.contents out.new)) }
    {
        let mut none = BlockSource::new(Header::IDLE, &[]);
        for _ in 0..cells {
            self.send_cell(&mut none, out)?;
        }
        Ok(())
    }

    /// Sends cells until all that carry a block are out, and writes out their octets. At most the first 65,536 octets of the block are
    /// carried, under its header, and none under a reserved one. Where a write fails, nothing is said of the line after it.
    pub fn send_block<W: Write>(
        &mut self,
        header: Header,
        block: &[u8],
        out: &mut W,
    ) -> io::Result<()>
        ensures { OnOk result (WaitingSent (source_of header.0 block.now) self.old (W.contents out.old) self.new (W.contents out.new)) }
    {
        self.send_waiting(&mut BlockSource::new(header, block), out)
    }

    // Sends cells until no user cell waits, and writes out their octets.
    #[tactic(auto, using(crate::proofs::Sendings::waiting_begun, crate::proofs::Sendings::waiting_sent, crate::proofs::Sendings::waiting_out))]
    fn send_waiting<S: CountedSource, W: Write>(
        &mut self,
        source: &mut S,
        out: &mut W,
    ) -> io::Result<()>
        ensures { OnOk result (WaitingSent (S.Source.waiting source.old) self.old (W.contents out.old) self.new (W.contents out.new)) }
    {
        while source.count() > 0 {
            self.send_cell(source, out)?;
        }
        Ok(())
    }

    // Sends the next cell, counts it, and writes out its octets.
    #[tactic(auto, using(crate::proofs::Sendings::cell_sent))]
    fn send_cell<S: Source, W: Write>(&mut self, source: &mut S, out: &mut W) -> io::Result<()>
        ensures { OnOk result (CellSent self.old (S.Source.waiting source.old) (W.contents out.old) self.new (S.Source.waiting source.new) (W.contents out.new)) }
    {
        let (kind, octets) = self.sender.send_next(source);
        self.tally.count_cell(kind);
        out.write_all(&octets)
    }

    /// Counts octets that were read.
    pub fn count_octets(&mut self, octets: usize)
        ensures tally { self.new.tally ≡ counted_octets octets self.old.tally }
        ensures same { self.new.sender ≡ self.old.sender }
    {
        self.tally.count_octets(octets);
    }

    /// What was read and sent so far, and the phase of the next cell.
    pub fn summary(&self) -> Summary
        ensures tally { result.tally ≡ self.now.tally }
        ensures phase { result.phase ≡ self.now.sender.phase }
    {
        Summary {
            tally: self.tally,
            phase: self.sender.phase(),
        }
    }
}
