//! A receiving end with its sink and its ring of events, and what comes of a call.
ghost use Rattle.std.specs.Prelude.{◌≡◌};
ghost use Rattle.receiver.specs.Feed.{events_of, Untouched};
ghost use Rattle.receiver_vectors.specs.End.{made_end, places_of, Carries};

use crate::calls::{Call, SinkKind};
use cell::refusal::Refusal;
use ports::sink::Sink;
use receiver::event::EventRecord;
use receiver::receiver::Receiver;
use ring::ring::Ring;

/// What a call that was not refused answered.
#[derive(Clone, Copy)]
pub enum Answer {
    Made,
    /// the sink took so many cells
    Taken(u32),
    Reset,
}

/// A receiving end and what it is used with.
#[derive(Drop)]
pub struct End {
    pub receiver: Receiver,
    /// how many places its ring of events has
    pub event_places: u32,
    pub sink: SinkKind,
}

impl End {
    pub fn new(event_places: u32, sink: SinkKind) -> End
        ensures { result ≡ made_end event_places sink }
    {
        End {
            receiver: Receiver::new(),
            event_places,
            sink,
        }
    }

    /// How many places the ring of its sink has.
    pub fn cell_places(&self) -> u32
        ensures { result ≡ places_of self.now.sink }
    {
        match self.sink {
            SinkKind::Ring(places) | SinkKind::Split { places, .. } => places,
            SinkKind::Closed => 0,
        }
    }

    /// Carries a call out; a feed hands its cells to this sink.
    pub fn call<S: Sink>(
        &mut self,
        call: &Call,
        sink: &mut S,
        events: &mut Ring<'_, EventRecord>,
    ) -> Result<Answer, Refusal>
        ensures answer { Carries call.now self.old (S.Sink.state sink.old) (events_of events.old) result self.new (S.Sink.state sink.new) (events_of events.new) }
        ensures untouched { Untouched result sink.old sink.new events.old events.new }
    {
        match call {
            Call::End { event_places, sink } => {
                *self = End::new(*event_places, *sink);
                Ok(Answer::Made)
            }
            Call::Feed(octets) => self
                .receiver
                .feed(octets.as_slice(), sink, events)
                .map(Answer::Taken),
            Call::Reset => {
                self.receiver.reset();
                Ok(Answer::Reset)
            }
        }
    }
}
