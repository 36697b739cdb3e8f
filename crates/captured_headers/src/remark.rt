//! What is said of a line of a capture.
ghost use Rattle.std.specs.Prelude.{Some};
ghost use Rattle.captured_headers.specs.Remark.{RemarkOn, complaint_text};

use crate::capture::Fault;
use crate::report::Report;
use crate::{capture, line_end};
use std::fmt;

/// A report on a header, none of an empty line, and else a complaint.
pub type Remark = Result<Option<Report>, Complaint>;

/// Why a line is no header.
#[derive(Clone, Copy, Debug, PartialEq, Eq)]
pub struct Complaint {
    pub line_number: u64,
    pub fault: Fault,
}

impl fmt::Display for Complaint {
    ghost output = { λ complaint. Some (complaint_text complaint) };

    fn fmt<W: fmt::Write>(&self, f: &mut fmt::Formatter<W>) -> fmt::Result {
        let Complaint { line_number, fault } = *self;
        write!(f, "{line_number:>5}  malformed: {fault}")
    }
}

// What is said of a line, which may have its line end.
pub(crate) fn remark_on(line_number: u64, line: &[u8]) -> Remark
    ensures { RemarkOn line.now line_number result }
{
    let header = capture::read(line_end::body(line)).map_err(|fault| Complaint {
        line_number,
        fault,
    })?;
    Ok(header.map(|received| Report::new(line_number, received)))
}
