//! The last 40 bits of the line, read as a header.
ghost use Rattle.std.specs.Prelude.{◌≡◌, ◌%◌, ◌^◌, ◌<◌, ◌==◌};
ghost use Rattle.cell.specs.LineHeader.{of_bits};
ghost use Rattle.tracker.specs.Window.{syndrome_in, agrees, samples_in, predicted, freed, sample_fault, header_in, mended_in, pushed};

use cell::header::Header;
use cell::line_header::LineHeader;
use cell::sizes::LINE_HEADER_BITS;
use cell::verdict;
use scrambler::samples::{header_mask, predicted_samples};

const HEADER_BITS: u32 = LINE_HEADER_BITS as u32;

// The last bits of the line.
#[derive(Clone, Copy, Debug, Default, PartialEq, Eq, Hash)]
pub(crate) struct Window {
    // the last 40, the newest below; before they have come, zeros stand for those that are missing
    bits: u64,
    // how many have come, up to 40; no octet, since the load of one behind a wider store made feeding slower
    pub(crate) come: u32,
}

impl Window {
    // Takes one bit more: the oldest of the 40 leaves.
    pub(crate) fn push(&mut self, bit: bool)
        ensures { self.new ≡ pushed self.old bit }
    {
        self.bits = self.bits % 0x80_0000_0000 * 2 + u64::from(bit);
        self.come = if self.come < HEADER_BITS {
            self.come + 1
        } else {
            HEADER_BITS
        };
    }

    // As many bits have come as a header has.
    pub(crate) fn is_whole(self) -> bool
        ensures { result ≡ (self.come == 40) }
    {
        self.come == HEADER_BITS
    }

    // The last eight bits.
    pub(crate) fn octet(self) -> u8
        ensures { result ≡ self.bits % 2 ^ 8 }
    {
        (self.bits % 0x100) as u8
    }

    fn line_header(self) -> LineHeader
        ensures { result ≡ of_bits self.bits }
    {
        LineHeader::from_bits(self.bits)
    }

    #[tactic(auto, unfolding(crate::specs::Window::syndrome_in))]
    fn syndrome(self) -> u8
        ensures { result ≡ syndrome_in self.bits }
    {
        self.line_header().syndrome()
    }

    // The header agrees: HEC6 to HEC1 of its syndrome are zero.
    #[tactic(auto, unfolding(crate::specs::Window::agrees))]
    pub(crate) fn agrees(self) -> bool
        ensures { result ≡ agrees self.bits }
    {
        verdict::agrees(self.syndrome())
    }

    // HEC8 and HEC7 of the syndrome, which carry the samples.
    #[tactic(auto, unfolding(crate::specs::Window::samples_in))]
    pub(crate) fn samples(self) -> u8
        ensures value { result ≡ samples_in self.bits }
        ensures small { result < 4 }
    {
        self.syndrome() / 0x40
    }

    // The samples are those that a phase predicts.
    pub(crate) fn is_as_predicted(self, phase: u32) -> bool
        ensures { result ≡ (samples_in self.bits == predicted phase) }
    {
        self.samples() == predicted(phase)
    }

    // The syndrome with HEC8 and HEC7 freed of the samples that a phase predicts.
    #[tactic(auto, unfolding(crate::specs::Window::freed))]
    pub(crate) fn freed(self, phase: u32) -> u8
        ensures { result ≡ freed phase self.bits }
    {
        self.syndrome() ^ predicted_samples(phase)
    }

    // The header, descrambled.
    #[tactic(auto, unfolding(crate::specs::Window::header_in))]
    pub(crate) fn header(self, phase: u32) -> Header
        ensures { result ≡ header_in phase self.bits }
    {
        Header(self.line_header().header.0 ^ header_mask(phase))
    }

    // The header with one bit of the 40 turned, descrambled.
    #[tactic(auto, unfolding(crate::specs::Window::header_in, crate::specs::Window::mended_in))]
    pub(crate) fn mended(self, phase: u32, bit: u8) -> Header
        ensures { result ≡ mended_in phase self.bits bit }
    {
        Header(self.line_header().mend(bit).header.0 ^ header_mask(phase))
    }
}

// HEC8 and HEC7 as a phase predicts them.
#[tactic(auto, unfolding(crate::specs::Window::predicted))]
fn predicted(phase: u32) -> u8
    ensures { result ≡ predicted phase }
{
    predicted_samples(phase) / 0x40
}

// A freed syndrome in which nothing but samples is wrong.
pub(crate) fn sample_fault(syndrome: u8) -> bool
    ensures { result ≡ sample_fault syndrome }
{
    matches!(syndrome, 0x80 | 0x40 | 0xc0)
}
