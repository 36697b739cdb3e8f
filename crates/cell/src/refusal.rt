//! Why a call is refused.
ghost use Rattle.std.specs.Prelude.{◌≡◌, Some};
ghost use Rattle.cell.specs.Refusal.{number_of, sentence_of};

use std::error::Error;
use std::fmt;

/// A refusal of any call of the product. A refused call changes nothing. Each has the number by which a caller knows it.
#[derive(Clone, Copy, Debug, PartialEq, Eq, Hash)]
pub enum Refusal {
    /// no octets were fed
    NoOctets = 1,
    /// more than 4,096 octets were fed at once
    TooManyOctets = 2,
    /// a phase of 0 or above 2^31 - 1
    BadPhase = 3,
    /// a slice has another length than the call takes
    WrongLength = 4,
    /// the header is reserved for idle or F3 cells
    ReservedHeader = 5,
    /// the sink does not serve the header
    NotServed = 6,
    /// the sink has no space for the connection
    NoSpace = 7,
    /// no cell waits in the source
    NoneWaiting = 8,
    /// a sample word above 2^31 - 1
    BadSampleWord = 9,
    /// the samples fit no phase, or several
    NoOnePhase = 10,
}

impl Refusal {
    /// The number by which a caller knows the refusal.
    pub fn number(self) -> u8
        ensures { result ≡ number_of self }
    {
        self as u8
    }
}

impl fmt::Display for Refusal {
    ghost output = { λ refusal. Some (sentence_of refusal) };

    fn fmt<W: fmt::Write>(&self, f: &mut fmt::Formatter<W>) -> fmt::Result {
        f.write_str(match self {
            Refusal::NoOctets => "no octets were fed",
            Refusal::TooManyOctets => "more than 4,096 octets were fed at once",
            Refusal::BadPhase => "the phase is 0 or above 2^31 - 1",
            Refusal::WrongLength => "the slice has another length than the call takes",
            Refusal::ReservedHeader => "the header is reserved for idle or F3 cells",
            Refusal::NotServed => "the sink does not serve the header",
            Refusal::NoSpace => "the sink has no space for the connection",
            Refusal::NoneWaiting => "no cell waits in the source",
            Refusal::BadSampleWord => "the sample word is above 2^31 - 1",
            Refusal::NoOnePhase => "the samples fit no phase, or several",
        })
    }
}

impl Error for Refusal {}
