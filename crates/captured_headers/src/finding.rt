//! What is found out of a header as received: its verdict, and what it was where one bit came wrong.
ghost use Rattle.std.specs.Prelude.{◌≡◌, Some};
ghost use Rattle.captured_headers.specs.Finding.{finding_of, Finds, finding_text};

use cell::header::Kind;
use cell::line_header::LineHeader;
use cell::verdict::Verdict;
use std::fmt;

/// What a captured header tells of its bits.
#[derive(Clone, Copy, Debug, PartialEq, Eq)]
pub enum Finding {
    /// the header came with its own check octet
    Clean,
    /// the syndrome is that of this one wrong bit: the header with it turned, and its kind
    OneWrongBit(u8, LineHeader, Kind),
    /// more than one bit came wrong
    PastMending,
}

// What is found out of a header as received. One wrong bit is mended, and two are found out.
impl From<LineHeader> for Finding {
    ghost from_gives = { Finds };

    fn from(received: LineHeader) -> Finding {
        under(received, received.judge())
    }
}

// What is found under a verdict. By itself: in `from` its clause would be proved by a file that names the mended header, and not by search.
fn under(received: LineHeader, verdict: Verdict) -> Finding
    ensures { result ≡ finding_of received verdict }
{
    match verdict {
        Verdict::Clean => Finding::Clean,
        Verdict::OneWrongBit(bit) => {
            let mended = received.mend(bit);
            Finding::OneWrongBit(bit, mended, mended.header.kind())
        }
        Verdict::PastMending => Finding::PastMending,
    }
}

impl fmt::Display for Finding {
    ghost output = { λ finding. Some (finding_text finding) };

    fn fmt<W: fmt::Write>(&self, f: &mut fmt::Formatter<W>) -> fmt::Result {
        match *self {
            Finding::Clean => f.write_str("clean"),
            Finding::OneWrongBit(bit, mended, kind) => {
                write!(f, "bit {bit} wrong, mended {mended} {kind}")
            }
            Finding::PastMending => f.write_str("past mending"),
        }
    }
}
