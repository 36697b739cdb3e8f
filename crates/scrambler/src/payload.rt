//! Scrambling and descrambling a payload: both are the same exclusive or.
ghost use Rattle.std.specs.Prelude.{◌≡◌, ℕ, ◌+◌, ◌^◌, ◌<◌};
ghost use Rattle.std.specs.Simd.{first_chunks};
ghost use Rattle.scrambler.specs.Coding.{masked};
ghost use Rattle.scrambler.specs.Generator.{step, iterate, Steps};

use crate::generator::steps_on;
use cell::sizes::PAYLOAD_OCTETS;

// So many octets are masked by one call of the generator: 24 steps, of the 28 that it takes at once. An octet at a time, `send` takes twice the time.
const PART_OCTETS: usize = 3;

const PARTS: usize = PAYLOAD_OCTETS / PART_OCTETS;

/// Xors payload bit k with U(t + 8 + k), three octets at a time. Of a phase above 2^31 - 1 the low 31 bits count.
pub fn mask_payload(phase: u32, payload: &mut [u8; PAYLOAD_OCTETS])
    ensures { payload.new ≡ masked 8 phase payload.old }
{
    let mut after = past_hec(phase);
    let mut parts = in_parts(payload);
    for part in parts.iter_mut() {
        after = steps_on(after, 24);
        *part = mask_part(*part, after);
    }
    payload.copy_from_slice(parts.as_flattened());
}

// A payload in parts. They are a value, since the contract of a loan of chunks does not say what the payload is after it.
fn in_parts(payload: &[u8; PAYLOAD_OCTETS]) -> [[u8; PART_OCTETS]; PARTS]
    ensures { result ≡ first_chunks 3 16 payload.now }
{
    let (parts, _) = payload.as_chunks();
    let Some(parts) = parts.as_array() else {
        unreachable!()
    };
    *parts
}

// Xors three octets with the low 24 bits of a word, from the top: the bits that came in by 24 steps.
fn mask_part(part: [u8; PART_OCTETS], word: u32) -> [u8; PART_OCTETS]
    ensures { (k p : ℕ) → iterate k step p < 2 ^ 31 → word ≡ iterate (k + 24) step p → result ≡ masked k p part }
{
    let [a, b, c] = part;
    let [_, first, second, third] = word.to_be_bytes();
    [a ^ first, b ^ second, c ^ third]
}

// The phase after the HEC octet: the generator runs on during it. A name says more than the eight steps in place.
fn past_hec(phase: u32) -> u32
    ensures on { Steps 8 phase result }
    ensures small { result < 2 ^ 31 }
{
    steps_on(phase, 8)
}
