//! The two samples of the generator that a cell's HEC octet carries, and the mask of its header.
ghost use Rattle.std.specs.Prelude.{◌≡◌};
ghost use Rattle.scrambler.specs.Coding.{header_mask, samples};

use crate::sums::picked_sum;

// The bits of a phase whose sum is U(t - 32), which is U(t - 1) xor U(t - 29).
const BEFORE_ROW: u32 = 0x1000_0001;
// Those whose sum is U(t - 211).
const HEC8_ROW: u32 = 0x53b3_0fe3;
// Those whose sum is U(t + 1), which is U(t - 27) xor U(t - 30).
const HEC7_ROW: u32 = 0x2400_0000;

/// What a header is xored with: U(t - 32) to U(t - 1), the oldest bit on top. Of a phase above 2^31 - 1 the low 31 bits count.
#[tactic(auto, using(crate::proofs::Masks::ago_32_is), unfolding(crate::specs::Coding::header_mask))]
pub fn header_mask(phase: u32) -> u32
    ensures { result ≡ header_mask phase }
{
    u32::from(picked_sum(phase, BEFORE_ROW)) * 0x8000_0000 + phase % 0x8000_0000
}

/// U(t - 211) at the place of HEC8 and U(t + 1) at that of HEC7, the other bits zero.
#[tactic(auto, using(crate::proofs::Masks::sample8_is, crate::proofs::Masks::sample7_is))]
pub fn predicted_samples(phase: u32) -> u8
    ensures { result ≡ samples phase }
{
    u8::from(picked_sum(phase, HEC8_ROW)) * 0x80 + u8::from(picked_sum(phase, HEC7_ROW)) * 0x40
}
