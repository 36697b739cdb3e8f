//! Finding the phase from samples.
ghost use Rattle.std.specs.Prelude.{◌≡◌, ◌^◌, ◌<◌};
ghost use Rattle.scrambler.specs.Finder.{times_rows, phase_rows, found, OnePhase, PhaseOf};

use crate::generator::LAST_PHASE;
use crate::sums::picked_sum;
use cell::refusal::Refusal;

/// The one phase with these 31 samples, the first on top, the last being the HEC7 sample of the cell whose phase it is.
/// Refuses a word above 2^31 - 1, and samples that fit no phase or several.
pub fn find_phase(word: u32) -> Result<u32, Refusal>
    ensures value { result ≡ found word }
    ensures one { PhaseOf word result }
{
    if word > LAST_PHASE {
        return Err(Refusal::BadSampleWord);
    }
    Ok(phase_by(&ROWS, word))
}

// The phase by rows that undo the sampling: the sum of the bits of the word that each row picks, the first row's on top. The rows are a
// parameter, so that what holds of any such rows is said of a name and not of 31 words.
fn phase_by(rows: &[u32; 31], word: u32) -> u32
    requires undo { rows.now ≡ phase_rows }
    requires small { word < 2 ^ 31 }
    ensures value { result ≡ times_rows phase_rows word }
    ensures one { OnePhase word result }
{
    rows.iter().fold(
        0,
        |bits, row| (bits << 1) ^ u32::from(picked_sum(word, *row)),
    )
}

// For each bit of the phase, the top bit first, the bits of the sample word whose sum it is.
const ROWS: [u32; 31] = [
    0x7400_ca4b,
    0x6d55_cb9c,
    0x783d_db0f,
    0x2319_9ede,
    0x6d55_cb9d,
    0x5b33_ab17,
    0x55c9_1de4,
    0x6317_7a20,
    0x7aa4_8517,
    0x6266_a693,
    0x0e4c_ba24,
    0x15ef_5902,
    0x2359_d37a,
    0x5377_42f6,
    0x6fa1_6e69,
    0x4b45_8e10,
    0x113d_50db,
    0x5a73_db7e,
    0x0d7e_e42d,
    0x2666_81a5,
    0x5fee_218a,
    0x73cc_0f2e,
    0x2393_dd7f,
    0x17f2_8580,
    0x64cb_5d4b,
    0x2d03_9a27,
    0x4e90_3b0d,
    0x4f3d_fcd4,
    0x164b_fd69,
    0x75ae_577e,
    0x336f_8a51,
];
