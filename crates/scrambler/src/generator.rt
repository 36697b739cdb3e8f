//! The generator, by its phase.
ghost use Rattle.std.specs.Prelude.{◌≡◌, ◌^◌, ◌<◌, ◌≤◌};
ghost use Rattle.scrambler.specs.Generator.{Steps, next_phase, PhaseAnswer};
ghost use Rattle.scrambler.specs.Sequence.{SequenceLaws};

use cell::refusal::Refusal;

/// The largest phase: a phase has 31 bits. It is no type of its own, since the calls that take one take any word.
pub const LAST_PHASE: u32 = 0x7fff_ffff;

/// Refuses what no cell is coded at: a phase of 0 or above 2^31 - 1.
pub fn check_phase(phase: u32) -> Result<(), Refusal>
    ensures { PhaseAnswer phase result }
{
    if phase == 0 || phase > LAST_PHASE {
        return Err(Refusal::BadPhase);
    }
    Ok(())
}

/// The phase of the next cell, 424 steps on: 15 times 28, and 4. Of a word above 2^31 - 1 the low 31 bits count.
pub fn next_phase(phase: u32) -> u32
    ensures value { result ≡ next_phase phase }
    ensures small { result < 2 ^ 31 }
{
    // a loop: it repeats one step and reads no index, and a fold over a range is no plainer
    let mut p = phase;
    for _i in 0..15u32 {
        p = steps_on(p, 28);
    }
    steps_on(p, 4)
}

// Up to 28 steps at once, as far as the recurrence reaches back: each bit that comes in is made of two that are there.
pub(crate) fn steps_on(phase: u32, count: u32) -> u32
    requires some { 0 < count }
    requires few { count ≤ 28 }
    ensures on { Steps count phase result }
    ensures small { result < 2 ^ 31 }
{
    let new = ((phase >> (28 - count)) ^ (phase >> (31 - count))) & ((1 << count) - 1);
    ((phase << count) & LAST_PHASE) ^ new
}

/// Steps, bits, octets and masks of a phase are those of any sequence of bits that obeys the recurrence: this call does nothing,
/// and its contract is the proof of that.
pub fn generator_laws_hold()
    ensures { SequenceLaws }
{}
