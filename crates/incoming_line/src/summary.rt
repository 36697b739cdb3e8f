//! The summary of a line.
ghost use Rattle.std.specs.Prelude.{Some};
ghost use Rattle.std.specs.Fmt.{WritesOnOk};
ghost use Rattle.incoming_line.specs.Summary.{line_text, cells_text, summary_text};

use crate::line::Tally;
use receiver::book::Counters;
use receiver_words::readings::Readings;
use std::fmt;

/// What came in, and how the receiving end stands.
#[derive(Clone, Copy, PartialEq, Eq)]
pub struct Summary {
    pub tally: Tally,
    pub readings: Readings,
}

impl Summary {
    // Writes how much came in.
    fn write_line<W: fmt::Write>(&self, f: &mut fmt::Formatter<W>) -> fmt::Result
        ensures { WritesOnOk W.write_str_gives f.old result (line_text self.now) f.new }
    {
        let octets = self.tally.octets;
        let bits = self.readings.bits;
        writeln!(f, "line: octets {octets}, bits {bits}")
    }

    // Writes what became of the user cells.
    fn write_cells<W: fmt::Write>(&self, f: &mut fmt::Formatter<W>) -> fmt::Result
        ensures { WritesOnOk W.write_str_gives f.old result (cells_text self.now) f.new }
    {
        let cells = self.tally.cells;
        let Counters {
            taken,
            full,
            unserved,
            ..
        } = self.readings.counters;
        writeln!(
            f,
            "user cells: written {cells}; taken {taken}, full {full}, not served {unserved}"
        )
    }
}

impl fmt::Display for Summary {
    ghost output = { λ summary. Some (summary_text summary) };

    fn fmt<W: fmt::Write>(&self, f: &mut fmt::Formatter<W>) -> fmt::Result {
        self.write_line(f)?;
        self.write_cells(f)?;
        self.readings.write_below(f)
    }
}
