//! Counts over a whole capture.
ghost use Rattle.std.specs.Prelude.{◌≡◌, Some};
ghost use Rattle.captured_headers.specs.Remark.{RemarkOn};
ghost use Rattle.captured_headers.specs.Tally.{counted, headers_in, tally_text};

use crate::finding::Finding;
use crate::remark::{Remark, remark_on};
use std::fmt;
use std::num::Saturating;

/// Counts of lines. A counter stops at its top.
#[derive(Clone, Copy, Default)]
pub struct Tally {
    pub clean: Saturating<u64>,
    pub one_wrong_bit: Saturating<u64>,
    pub past_mending: Saturating<u64>,
    pub malformed: Saturating<u64>,
}

impl Tally {
    /// What is said of a line, which may have its line end; and counts it.
    pub fn take(&mut self, line_number: u64, line: &[u8]) -> Remark
        ensures remark { RemarkOn line.now line_number result }
        ensures after { self.new ≡ counted result self.old }
    {
        let remark = remark_on(line_number, line);
        self.count(&remark);
        remark
    }

    fn count(&mut self, remark: &Remark)
        ensures { self.new ≡ counted remark.now self.old }
    {
        match remark {
            Ok(None) => {}
            Ok(Some(report)) => match report.finding {
                Finding::Clean => self.clean += 1,
                Finding::OneWrongBit(..) => self.one_wrong_bit += 1,
                Finding::PastMending => self.past_mending += 1,
            },
            Err(_) => self.malformed += 1,
        }
    }

    // Headers of any finding.
    fn headers(&self) -> u64
        ensures { result ≡ headers_in self.now }
    {
        (self.clean + self.one_wrong_bit + self.past_mending).0
    }
}

impl fmt::Display for Tally {
    ghost output = { λ t. Some (tally_text t) };

    fn fmt<W: fmt::Write>(&self, f: &mut fmt::Formatter<W>) -> fmt::Result {
        let headers = self.headers();
        let Tally {
            clean,
            one_wrong_bit,
            past_mending,
            malformed,
        } = *self;
        write!(
            f,
            "headers {headers}: clean {clean}, one wrong bit {one_wrong_bit}, past mending {past_mending}; malformed lines {malformed}"
        )
    }
}
