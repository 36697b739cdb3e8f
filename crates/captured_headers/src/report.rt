//! What is said of a header.
ghost use Rattle.std.specs.Prelude.{◌≡◌, Some};
ghost use Rattle.std.specs.Fmt.{WritesOnOk};
ghost use Rattle.cell.specs.LineHeader.{bits40};
ghost use Rattle.captured_headers.specs.Finding.{CleanSent, OneMended, TwoFound};
ghost use Rattle.captured_headers.specs.Report.{report_of, received_text, fields_text, found_text, report_text};

use crate::finding::Finding;
use cell::header::{Fields, Kind};
use cell::line_header::LineHeader;
use std::fmt;

/// A header as received, and all that follows from it.
#[derive(Clone, Copy, Debug, PartialEq, Eq)]
pub struct Report {
    pub line_number: u64,
    pub received: LineHeader,
    pub fields: Fields,
    pub connection: u32,
    pub kind: Kind,
    pub syndrome: u8,
    pub finding: Finding,
}

impl Report {
    /// All that follows from a header as received. One wrong bit is mended, and two are found out.
    pub fn new(line_number: u64, received: LineHeader) -> Report
        ensures value { result ≡ report_of line_number received }
        ensures clean { CleanSent (bits40 received) result.finding }
        ensures one { OneMended (bits40 received) result.finding }
        ensures two { TwoFound (bits40 received) result.finding }
    {
        Report {
            line_number,
            received,
            fields: received.header.fields(),
            connection: received.header.connection(),
            kind: received.header.kind(),
            syndrome: received.syndrome(),
            finding: Finding::from(received),
        }
    }
}

impl fmt::Display for Report {
    ghost output = { λ report. Some (report_text report) };

    fn fmt<W: fmt::Write>(&self, f: &mut fmt::Formatter<W>) -> fmt::Result {
        self.write_received(f)?;
        self.write_fields(f)?;
        self.write_found(f)
    }
}

// The text in three parts: with more fields to a part no proof is found.
impl Report {
    fn write_received<W: fmt::Write>(&self, f: &mut fmt::Formatter<W>) -> fmt::Result
        ensures { WritesOnOk W.write_str_gives f.old result (received_text self.now) f.new }
    {
        let Report {
            line_number,
            received,
            kind,
            ..
        } = *self;
        write!(f, "{line_number:>5}  {received}  {kind:<4}  ")
    }

    fn write_fields<W: fmt::Write>(&self, f: &mut fmt::Formatter<W>) -> fmt::Result
        ensures { WritesOnOk W.write_str_gives f.old result (fields_text self.now) f.new }
    {
        let Report {
            fields,
            connection,
            ..
        } = *self;
        let Fields {
            gfc,
            vpi,
            vci,
            pt,
            clp,
        } = fields;
        write!(
            f,
            "GFC {gfc:>2}  VPI {vpi:>3}  VCI {vci:>5}  PT {pt}  CLP {clp}  connection {connection:>8}  "
        )
    }

    #[tactic(auto, using(std::proofs::lemmas::Fmt::hex_byte))]
    fn write_found<W: fmt::Write>(&self, f: &mut fmt::Formatter<W>) -> fmt::Result
        ensures { WritesOnOk W.write_str_gives f.old result (found_text self.now) f.new }
    {
        let Report {
            syndrome,
            finding,
            ..
        } = *self;
        write!(f, "syndrome {syndrome:02X}  {finding}")
    }
}
