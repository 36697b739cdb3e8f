//! The line as it comes in: the receiving end, and how much came so far.
ghost use Rattle.std.specs.Prelude.{◌≡◌, length};
ghost use Rattle.receiver.specs.Feed.{made, events_of, FeedAnswer, Untouched};
ghost use Rattle.receiver.specs.Handing.{Unasked};
ghost use Rattle.receiver.specs.Run.{bits_of};
ghost use Rattle.incoming_line.specs.Line.{none, counted, counted_feed, summary_of};

use crate::summary::Summary;
use cell::refusal::Refusal;
use ports::sink::Sink;
use receiver::event::EventRecord;
use receiver::receiver::Receiver;
use receiver_words::readings::Readings;
use ring::ring::Ring;

/// What came in. A counter stops at its top.
#[derive(Clone, Copy, Debug, Default, PartialEq, Eq)]
pub struct Tally {
    /// octets of the line
    pub octets: u64,
    /// cells handed up
    pub cells: u64,
}

/// A line as it comes in: the receiving end, and the counts.
#[derive(Drop)]
pub struct Line {
    receiver: Receiver,
    tally: Tally,
}

impl Line {
    /// A line on which nothing came yet.
    pub fn new() -> Line
        ensures receiver { result.receiver ≡ made }
        ensures tally { result.tally ≡ none }
    {
        Line {
            receiver: Receiver::new(),
            tally: Tally::default(),
        }
    }

    /// Feeds the receiving end, and counts the octets and the cells that the sink took. Refuses no octets, and more than 4,096.
    pub fn feed<S: Sink>(
        &mut self,
        octets: &[u8],
        sink: &mut S,
        events: &mut Ring<'_, EventRecord>,
    ) -> Result<u32, Refusal>
        ensures answer { FeedAnswer octets.now self.old.receiver (S.Sink.state sink.old) (events_of events.old) result self.new.receiver (S.Sink.state sink.new) (events_of events.new) }
        ensures untouched { Untouched result sink.old sink.new events.old events.new }
        ensures unasked { Unasked self.old.receiver.tracker (bits_of octets.now) sink.old sink.new }
        ensures tally { self.new.tally ≡ counted_feed (length octets.now) result self.old.tally }
    {
        let answer = self.receiver.feed(octets, sink, events);
        if let Ok(cells) = answer {
            self.tally.count(octets.len(), cells);
        }
        answer
    }

    /// What came in, and how the receiving end stands.
    pub fn summary(&self) -> Summary
        ensures { result ≡ summary_of self.now }
    {
        Summary {
            tally: self.tally,
            readings: Readings::from(&self.receiver),
        }
    }
}

impl Tally {
    // Counts what one feed brought.
    fn count(&mut self, octets: usize, cells: u32)
        ensures { self.new ≡ counted octets cells self.old }
    {
        self.octets = self.octets.saturating_add(octets as u64);
        self.cells = self.cells.saturating_add(u64::from(cells));
    }
}
