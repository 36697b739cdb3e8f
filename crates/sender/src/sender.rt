//! The sending end: which cell goes out, and at which phase.
ghost use Rattle.std.specs.Prelude.{◌≡◌, drop};
ghost use Rattle.ports.specs.Cell.{octets};
ghost use Rattle.scrambler.specs.Coding.{coded};
ghost use Rattle.sender.specs.Sender.{SenderState, IsRunning, fresh, cell_sent, kind_sent, left_waiting, advanced, StartAnswer, Sends, SendAnswer, Octets, KindWhy, NotAsked, SourceAnswer, F3Answer};

use cell::header::{Header, Kind};
use cell::octets::cell_octets;
use cell::refusal::Refusal;
use cell::sizes::{CELL_OCTETS, LINE_OCTETS, PAYLOAD_OCTETS};
use ports::source::Source;
use scrambler::coding::code_octets;
use scrambler::generator::{check_phase, next_phase};
use std::marker::Model;

mod readings;

// Every so many cells an F3 cell goes out.
const F3_PERIOD: u16 = 432;

// Each octet of an idle cell's payload, and of an F3 cell's until another is set.
const FILL: u8 = 0x6a;

/// A sending end. Its phase is never 0, so what it sends is always scrambled. It cannot be copied, so that each has one history.
#[derive(Drop)]
pub struct Sender {
    // the phase of the next cell
    phase: u32,
    // the number of the next cell since the start, by its remainder at 432
    number: u16,
    // the payload of F3 cells
    f3: [u8; PAYLOAD_OCTETS],
}

impl Model for Sender {
    ghost Value = { SenderState };

    ghost view = { λ s. record { phase = s.phase; number = s.number; f3 = s.f3 } };

    ghost invariant = { λ s. IsRunning (record { phase = s.phase; number = s.number; f3 = s.f3 }) };

    ghost inverse = { λ s. record { phase = s.phase; number = s.number; f3 = s.f3 } };
}

impl Sender {
    /// A sender at phase 1, before its first cell.
    pub fn new() -> Sender
        ensures { result ≡ fresh }
    {
        Sender {
            phase: 1,
            number: 0,
            f3: [FILL; PAYLOAD_OCTETS],
        }
    }

    /// Starts again at another phase, before its first cell. Refuses a phase of 0 or above 2^31 - 1.
    pub fn start(&mut self, phase: u32) -> Result<(), Refusal>
        ensures { StartAnswer self.old phase result self.new }
    {
        check_phase(phase)?;
        self.phase = phase;
        self.number = 0;
        Ok(())
    }

    /// Sets the payload of the F3 cells that go out from now on. Refuses a payload not of 48 octets.
    #[tactic(auto, using(crate::proofs::Octets::all_octets))]
    pub fn set_f3(&mut self, payload: &[u8]) -> Result<(), Refusal>
        ensures { F3Answer self.old payload.now result self.new }
    {
        self.f3 = payload.try_into().map_err(|_| Refusal::WrongLength)?;
        Ok(())
    }

    /// Writes the 53 octets of the next cell, and answers its kind: every 432nd is an F3 cell; any other is the user cell that waits
    /// first in the source, which is then taken from it, or an idle cell where none waits. Refuses a place not of 53 octets.
    pub fn send<S: Source>(&mut self, source: &mut S, place: &mut [u8]) -> Result<Kind, Refusal>
        ensures answer { SendAnswer self.old (S.Source.waiting source.old) place.old result self.new (S.Source.waiting source.new) place.new }
        ensures source { SourceAnswer result source.old source.new }
    {
        let place = place.as_mut_array().ok_or(Refusal::WrongLength)?;
        let (kind, line) = self.send_next(source);
        *place = line;
        Ok(kind)
    }

    /// The same without a place: the kind of the next cell, and its 53 octets.
    pub fn send_next<S: Source>(&mut self, source: &mut S) -> (Kind, [u8; LINE_OCTETS])
        ensures sends { Sends self.old (S.Source.waiting source.old) result.0 result.1 self.new (S.Source.waiting source.new) }
        ensures source { NotAsked result.0 source.old source.new }
    {
        let (kind, cell) = self.choose(source);
        let line = self.code(&cell);
        self.advance();
        (kind, line)
    }

    // The kind of the next cell, and its 52 octets.
    fn choose<S: Source>(&self, source: &mut S) -> (Kind, [u8; CELL_OCTETS])
        ensures sort { result.0 ≡ kind_sent self.now (S.Source.waiting source.old) }
        ensures why { KindWhy self.now (S.Source.waiting source.old) result.0 }
        ensures octets { result.1 ≡ octets (cell_sent self.now (S.Source.waiting source.old)) }
        ensures left { S.Source.waiting source.new ≡ left_waiting self.now (S.Source.waiting source.old) }
        ensures source { NotAsked result.0 source.old source.new }
    {
        if self.number == 0 {
            return (Kind::F3, cell_octets(Header::F3, &self.f3));
        }
        let mut cell = [0; CELL_OCTETS];
        // a match: either answer makes a cell, and neither is passed on
        match source.take(&mut cell) {
            Ok(()) => (Kind::User, cell),
            Err(_) => (
                Kind::Idle,
                cell_octets(Header::IDLE, &[FILL; PAYLOAD_OCTETS]),
            ),
        }
    }

    // Codes a cell at the sender's phase. Its payload is of octets, since an array of them holds it.
    #[tactic(auto, using(crate::proofs::Octets::payload_octets))]
    fn code(&self, cell: &[u8; CELL_OCTETS]) -> [u8; LINE_OCTETS]
        ensures line { result ≡ coded self.now.phase cell.now }
        ensures payload { Octets 48 (drop 4 cell.now) }
    {
        code_octets(cell, self.phase)
    }

    // One cell on.
    #[tactic(auto, using(crate::proofs::Phases::next_running))]
    fn advance(&mut self)
        ensures { self.new ≡ advanced self.old }
    {
        self.phase = next_phase(self.phase);
        self.number = (self.number + 1) % F3_PERIOD;
    }
}
