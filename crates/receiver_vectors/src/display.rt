//! How what came of a call is written.
use crate::end::{Answer, End};
use hex_digits::digits::Hex;
use std::fmt;
use tracker::reading::{Boundary, State};
use tracker::state::Descrambler;

impl fmt::Display for Answer {
    fn fmt<W: fmt::Write>(&self, f: &mut fmt::Formatter<W>) -> fmt::Result {
        match self {
            Answer::Made => write!(f, "end"),
            Answer::Taken(cells) => write!(f, "feed taken {cells}"),
            Answer::Reset => write!(f, "reset"),
        }
    }
}

// All readings of an end.
impl fmt::Display for End {
    fn fmt<W: fmt::Write>(&self, f: &mut fmt::Formatter<W>) -> fmt::Result {
        write_state(f, self.receiver.state())?;
        write!(f, " bits {}", self.receiver.bits())?;
        let counters = self.receiver.counters();
        write!(
            f,
            " taken {} mended {} discarded {}",
            counters.taken, counters.mended, counters.discarded
        )?;
        write!(
            f,
            " full {} unserved {} f3 {} lost {}",
            counters.full, counters.unserved, counters.f3, counters.lost
        )?;
        write!(f, " payload {}", Hex(self.receiver.f3_payload()))
    }
}

// A word for each part of the state, with its count where it has one, and the descrambler's phase where one is known: the vectors have
// fewer words for a state than its own Display.
fn write_state<W: fmt::Write>(f: &mut fmt::Formatter<W>, state: State) -> fmt::Result {
    match state.boundary {
        Boundary::Hunt => write!(f, "state HUNT 0")?,
        Boundary::Presync(agreeing) => write!(f, "state PRESYNC {agreeing}")?,
        Boundary::Sync(wrong) => write!(f, "state SYNC {wrong}")?,
    }
    match state.descrambler {
        Descrambler::Acquisition(confidence) => write!(f, " Acquisition {confidence}")?,
        Descrambler::Verification(confidence, phase) => {
            write!(f, " Verification {confidence} phase {phase:08x}")?
        }
        Descrambler::Steady(confidence, phase) => {
            write!(f, " Steady {confidence} phase {phase:08x}")?
        }
    }
    write!(f, " {}", state.mode)
}
