//! The summary of a line.
ghost use Rattle.std.specs.Prelude.{Some};
ghost use Rattle.outgoing_line.specs.Summary.{summary_text};

use crate::tally::Tally;
use std::fmt;

/// What was read and sent, and the phase of the cell that would be next.
#[derive(Clone, Copy, PartialEq, Eq)]
pub struct Summary {
    pub tally: Tally,
    pub phase: u32,
}

impl fmt::Display for Summary {
    ghost output = { λ summary. Some (summary_text summary) };

    fn fmt<W: fmt::Write>(&self, f: &mut fmt::Formatter<W>) -> fmt::Result {
        let Summary { tally, phase } = *self;
        write!(f, "{tally}; phase at the end 0x{phase:08X}")
    }
}
