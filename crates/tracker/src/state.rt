//! The states of the receiving end between two bits.
ghost use Rattle.std.specs.Prelude.{◌≡◌};
ghost use Rattle.tracker.specs.Rules.{phase_of};

use crate::events::HeaderEvents;
use cell::header::Header;

/// In correction mode a header with one wrong bit is mended; in detection mode none is.
#[derive(Clone, Copy, Debug, PartialEq, Eq, Hash)]
pub enum Mode {
    Correction,
    Detection,
}

/// How sure the cell boundary is, once a hunt has ended.
#[derive(Clone, Copy, Debug, PartialEq, Eq, Hash)]
pub enum Delineation {
    /// with the agreeing headers since the one that ended the hunt
    Presync(u8),
    /// with the wrong headers in a row
    Sync(u8),
}

/// How sure the descrambler's phase is: the confidence and, once found, the phase of the cell whose header came last.
#[derive(Clone, Copy, Debug, PartialEq, Eq, Hash)]
pub enum Descrambler {
    Acquisition(u8),
    Verification(u8, u32),
    Steady(u8, u32),
}

impl Descrambler {
    // The phase of the cell whose header came last, once one is found.
    pub(crate) fn phase(self) -> Option<u32>
        ensures { result ≡ phase_of self }
    {
        match self {
            Descrambler::Acquisition(_) => None,
            Descrambler::Verification(_, phase) | Descrambler::Steady(_, phase) => Some(phase),
        }
    }
}

/// All that is known while a boundary is assumed, with the samples of the last sixteen headers, the newest below.
#[derive(Clone, Copy, Debug, PartialEq, Eq, Hash)]
pub struct Lock {
    pub delineation: Delineation,
    pub descrambler: Descrambler,
    pub samples: u32,
}

// What is still to come counts down: most bits then compare one number with zero, and the place of an octet is plain subtraction,
// within bounds whatever the numbers are. An octet has 8 bits, a payload 48 octets, a header 40 bits with its check octet.
pub(crate) const LAST_BIT: u8 = 7;

pub(crate) const LAST_OCTET: u8 = 47;

pub(crate) const LAST_HEADER_BIT: u8 = 39;

/// Where the next bit falls, the commonest place first, so that it is asked for first. HUNT is a state that has a name, so it is no None.
#[derive(Clone, Copy, Debug, PartialEq, Eq, Hash)]
pub enum Place {
    /// into a payload
    Payload {
        /// after this one
        octets: u8,
        /// after this one in its octet
        bits: u8,
        /// the header of the cell, if it is kept
        kept: Option<Header>,
        lock: Lock,
    },
    /// into a header
    Header {
        /// after this one
        bits: u8,
        lock: Lock,
    },
    /// the boundary is hunted for
    Hunt,
}

/// The state that a header changes. The mode outlives the boundary.
#[derive(Clone, Copy, Debug, PartialEq, Eq, Hash)]
pub struct Control {
    pub mode: Mode,
    pub place: Place,
}

/// What a header leads to: the state after it, and the events on it.
#[derive(Clone, Copy, Debug)]
pub struct Headed {
    pub control: Control,
    pub events: HeaderEvents,
}
