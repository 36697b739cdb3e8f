//! What can be read of a tracker's state.
ghost use Rattle.std.specs.Prelude.{◌≡◌};
ghost use Rattle.tracker.specs.Reading.{boundary_of, state_of};

use crate::state::{Delineation, Descrambler, Mode, Place};
use crate::tracker::Tracker;

/// The cell boundary: hunted for, or assumed. No Option of a Delineation: HUNT is a state that has a name, and is printed by it.
#[derive(Clone, Copy, Debug, PartialEq, Eq, Hash)]
pub enum Boundary {
    Hunt,
    /// with the agreeing headers since the one that ended the hunt
    Presync(u8),
    /// with the wrong headers in a row
    Sync(u8),
}

impl From<Delineation> for Boundary {
    ghost from_gives = { λ delineation boundary. boundary ≡ boundary_of delineation };

    fn from(delineation: Delineation) -> Boundary {
        match delineation {
            Delineation::Presync(agreeing) => Boundary::Presync(agreeing),
            Delineation::Sync(wrong) => Boundary::Sync(wrong),
        }
    }
}

/// The state that headers lead to. In HUNT the descrambler is in Acquisition with confidence 0.
#[derive(Clone, Copy, Debug, PartialEq, Eq, Hash)]
pub struct State {
    pub boundary: Boundary,
    pub descrambler: Descrambler,
    pub mode: Mode,
}

impl Tracker {
    /// The state between two headers.
    pub fn state(&self) -> State
        ensures { result ≡ state_of self.now }
    {
        let control = self.control();
        match control.place {
            Place::Hunt => State {
                boundary: Boundary::Hunt,
                descrambler: Descrambler::Acquisition(0),
                mode: control.mode,
            },
            Place::Payload { lock, .. } | Place::Header { lock, .. } => State {
                boundary: Boundary::from(lock.delineation),
                descrambler: lock.descrambler,
                mode: control.mode,
            },
        }
    }
}
