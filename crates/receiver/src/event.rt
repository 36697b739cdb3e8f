//! Events, by layers, and the plain numbers that stand for them in a ring.
ghost use Rattle.std.specs.Prelude.{◌≡◌, Some, codes};
ghost use Rattle.receiver.specs.Event.{event_numbers, record_of, Undoes, event_words, record_words};

use std::error::Error;
use std::fmt;
use tracker::events::{BoundaryCause, DescramblerCause, HeaderCause};

/// Layer 4, the sink.
#[derive(Clone, Copy, Debug, PartialEq, Eq, Hash)]
pub enum SinkCause {
    Full,
    NotServed,
}

/// What happened, by its layer and its cause there.
#[derive(Clone, Copy, Debug, PartialEq, Eq, Hash)]
pub enum Event {
    Header(HeaderCause),
    Boundary(BoundaryCause),
    Descrambler(DescramblerCause),
    Sink(SinkCause),
}

/// An event in plain numbers, with the number of the last bit seen.
#[derive(Clone, Copy, Debug, Default, PartialEq, Eq, Hash)]
pub struct EventRecord {
    pub bit: u64,
    pub layer: u8,
    pub cause: u8,
}

/// The numbers of a record are those of no event.
#[derive(Clone, Copy, Debug, PartialEq, Eq, Hash)]
pub struct UnknownEvent;

impl Event {
    /// The numbers of the layer and of the cause, since a ring of events holds plain numbers. `TryFrom` undoes it.
    pub fn numbers(self) -> (u8, u8)
        ensures { result ≡ event_numbers self }
    {
        match self {
            Event::Header(HeaderCause::Mended) => (1, 1),
            Event::Header(HeaderCause::Discarded) => (1, 2),
            Event::Boundary(BoundaryCause::Presync) => (2, 1),
            Event::Boundary(BoundaryCause::Sync) => (2, 2),
            Event::Boundary(BoundaryCause::LostFromPresync) => (2, 3),
            Event::Boundary(BoundaryCause::LostFromSync) => (2, 4),
            Event::Descrambler(DescramblerCause::Verification) => (3, 1),
            Event::Descrambler(DescramblerCause::Steady) => (3, 2),
            Event::Descrambler(DescramblerCause::LeftForAcquisition) => (3, 3),
            Event::Sink(SinkCause::Full) => (4, 1),
            Event::Sink(SinkCause::NotServed) => (4, 2),
        }
    }

    /// The event as a ring holds it.
    pub fn record(self, bit: u64) -> EventRecord
        ensures { result ≡ record_of bit self }
    {
        let (layer, cause) = self.numbers();
        EventRecord { bit, layer, cause }
    }
}

// Reads the event from its numbers.
impl TryFrom<EventRecord> for Event {
    type Error = UnknownEvent;

    ghost try_from_gives = { Undoes };

    fn try_from(record: EventRecord) -> Result<Event, UnknownEvent> {
        match (record.layer, record.cause) {
            (1, 1) => Ok(Event::Header(HeaderCause::Mended)),
            (1, 2) => Ok(Event::Header(HeaderCause::Discarded)),
            (2, 1) => Ok(Event::Boundary(BoundaryCause::Presync)),
            (2, 2) => Ok(Event::Boundary(BoundaryCause::Sync)),
            (2, 3) => Ok(Event::Boundary(BoundaryCause::LostFromPresync)),
            (2, 4) => Ok(Event::Boundary(BoundaryCause::LostFromSync)),
            (3, 1) => Ok(Event::Descrambler(DescramblerCause::Verification)),
            (3, 2) => Ok(Event::Descrambler(DescramblerCause::Steady)),
            (3, 3) => Ok(Event::Descrambler(DescramblerCause::LeftForAcquisition)),
            (4, 1) => Ok(Event::Sink(SinkCause::Full)),
            (4, 2) => Ok(Event::Sink(SinkCause::NotServed)),
            _ => Err(UnknownEvent),
        }
    }
}

impl fmt::Display for Event {
    ghost output = { λ e. Some (event_words e) };

    fn fmt<W: fmt::Write>(&self, f: &mut fmt::Formatter<W>) -> fmt::Result {
        f.write_str(match self {
            Event::Header(HeaderCause::Mended) => "header: mended",
            Event::Header(HeaderCause::Discarded) => "header: discarded",
            Event::Boundary(BoundaryCause::Presync) => "boundary: PRESYNC",
            Event::Boundary(BoundaryCause::Sync) => "boundary: SYNC",
            Event::Boundary(BoundaryCause::LostFromPresync) => "boundary: lost from PRESYNC",
            Event::Boundary(BoundaryCause::LostFromSync) => "boundary: lost from SYNC",
            Event::Descrambler(DescramblerCause::Verification) => "descrambler: verification",
            Event::Descrambler(DescramblerCause::Steady) => "descrambler: steady state",
            Event::Descrambler(DescramblerCause::LeftForAcquisition) =>
                "descrambler: back to acquisition",
            Event::Sink(SinkCause::Full) => "sink: full",
            Event::Sink(SinkCause::NotServed) => "sink: not served",
        })
    }
}

impl fmt::Display for EventRecord {
    ghost output = { λ x. Some (record_words x) };

    #[tactic(auto, using(crate::proofs::Events::event_known, crate::proofs::Events::event_unknown, crate::proofs::Events::event_joined, crate::proofs::Events::numbers_joined))]
    fn fmt<W: fmt::Write>(&self, f: &mut fmt::Formatter<W>) -> fmt::Result {
        match Event::try_from(*self) {
            Ok(event) => write!(f, "bit {}: {event}", self.bit),
            Err(UnknownEvent) => write!(
                f,
                "bit {}: layer {}, cause {}",
                self.bit, self.layer, self.cause
            ),
        }
    }
}

impl fmt::Display for UnknownEvent {
    ghost output = { λ _. Some (codes "no event has these numbers") };

    fn fmt<W: fmt::Write>(&self, f: &mut fmt::Formatter<W>) -> fmt::Result {
        f.write_str("no event has these numbers")
    }
}

impl Error for UnknownEvent {}
