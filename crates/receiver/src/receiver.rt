//! The receiving end: making it, reset and readings.
ghost use Rattle.std.specs.Prelude.{◌≡◌};
ghost use Rattle.tracker.specs.Reading.{state_of};
ghost use Rattle.receiver.specs.Feed.{made, was_reset};

use crate::book::{Book, Counters};
use cell::sizes::PAYLOAD_OCTETS;
use tracker::reading::State;
use tracker::tracker::Tracker;

/// A receiving end of the line. It cannot be copied, so that each has one history.
#[derive(Drop)]
pub struct Receiver {
    pub(crate) tracker: Tracker,
    pub(crate) book: Book,
}

impl Default for Receiver {
    ghost is_default = { λ r. r ≡ made };

    fn default() -> Receiver {
        Receiver::new()
    }
}

impl Receiver {
    /// A receiving end that has seen no bit: HUNT, Acquisition with confidence 0, correction mode, all counters zero.
    pub fn new() -> Receiver
        ensures { result ≡ made }
    {
        Receiver {
            tracker: Tracker::new(),
            book: Book::new(),
        }
    }

    /// Begins again as if made, but keeps the counters, the bit count and the last F3 payload.
    pub fn reset(&mut self)
        ensures { self.new ≡ was_reset self.old }
    {
        self.tracker.reset();
    }

    /// The boundary, the descrambler and the mode.
    pub fn state(&self) -> State
        ensures { result ≡ state_of self.now.tracker }
    {
        self.tracker.state()
    }

    /// What was counted since the receiving end was made, also before resets.
    pub fn counters(&self) -> Counters
        ensures { result ≡ self.now.book.counters }
    {
        self.book.counters
    }

    /// The number of the last bit seen. It stops at 2^63 - 1.
    pub fn bits(&self) -> u64
        ensures { result ≡ self.now.book.bits }
    {
        self.book.bits
    }

    /// The payload of the latest F3 cell; zeros before the first.
    pub fn f3_payload(&self) -> &[u8; PAYLOAD_OCTETS]
        ensures { result.now ≡ self.now.book.f3 }
    {
        self.book.f3()
    }
}
