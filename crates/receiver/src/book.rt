//! What the receiving end writes down: counters, the bits seen and the last F3 payload. Events go into a ring lent by the caller.
ghost use Rattle.std.specs.Prelude.{◌≡◌, length};
ghost use Rattle.receiver.specs.Book.{blank, bump, bit_counted, f3_stored, marked, posted, posted_if, header_noted, replied, log_of};

use crate::event::{Event, EventRecord, SinkCause};
use cell::sizes::PAYLOAD_OCTETS;
use ring::ring::Ring;
use tracker::events::{HeaderCause, HeaderEvents};

/// What has happened since making. Each counter stops at 4,294,967,295.
#[derive(Clone, Copy, Debug, Default, PartialEq, Eq, Hash)]
pub struct Counters {
    /// user cells that a sink took
    pub taken: u32,
    /// headers mended
    pub mended: u32,
    /// wrong headers in Steady that were not mended
    pub discarded: u32,
    /// user cells refused for want of space
    pub full: u32,
    /// user cells whose header the sink does not serve
    pub unserved: u32,
    /// F3 cells
    pub f3: u32,
    /// events that found the ring full
    pub lost: u32,
}

// The bit count stops here.
const LAST_BIT: u64 = 0x7fff_ffff_ffff_ffff;

/// All that is written down.
#[derive(Clone, Copy, Debug, PartialEq, Eq, Hash)]
pub struct Book {
    pub(crate) counters: Counters,
    // the number of the last bit seen: the first is 1
    pub(crate) bits: u64,
    // the payload of the latest F3 cell
    pub(crate) f3: [u8; PAYLOAD_OCTETS],
}

// One more. A counter stops at its last number.
fn bump(count: &mut u32)
    ensures { count.new ≡ bump count.old }
{
    *count = count.saturating_add(1);
}

// The ring is lent to each call apart from the book, as the end lends it.
impl Book {
    // All zero.
    pub(crate) fn new() -> Book
        ensures { result ≡ blank }
    {
        Book {
            counters: Counters::default(),
            bits: 0,
            f3: [0; PAYLOAD_OCTETS],
        }
    }

    pub(crate) fn f3(&self) -> &[u8; PAYLOAD_OCTETS]
        ensures { result.now ≡ self.now.f3 }
    {
        &self.f3
    }

    // One bit more was seen.
    pub(crate) fn count_bit(&mut self)
        ensures { self.new ≡ bit_counted self.old }
    {
        self.bits = if self.bits < LAST_BIT {
            self.bits + 1
        } else {
            LAST_BIT
        };
    }

    // An F3 cell came.
    pub(crate) fn store_f3(&mut self, payload: &[u8])
        requires whole { length payload.now ≡ 48 }
        ensures { self.new ≡ f3_stored payload.now self.old }
    {
        bump(&mut self.counters.f3);
        self.f3.copy_from_slice(payload);
    }

    // Puts an event into the ring, or counts it as lost.
    #[tactic(auto, using(crate::proofs::Posting::posted_room, crate::proofs::Posting::posted_full))]
    fn post(&mut self, events: &mut Ring<'_, EventRecord>, event: Event)
        ensures { log_of self.new events.new ≡ posted (log_of self.old events.old) event }
    {
        if events.push(event.record(self.bits)).is_err() {
            bump(&mut self.counters.lost);
        }
    }

    fn post_if(&mut self, events: &mut Ring<'_, EventRecord>, event: Option<Event>)
        ensures { log_of self.new events.new ≡ posted_if (log_of self.old events.old) event }
    {
        if let Some(event) = event {
            self.post(events, event);
        }
    }

    // Counts a header that was mended or discarded.
    fn mark(&mut self, cause: Option<HeaderCause>)
        ensures { self.new ≡ marked cause self.old }
    {
        match cause {
            None => {}
            Some(HeaderCause::Mended) => bump(&mut self.counters.mended),
            Some(HeaderCause::Discarded) => bump(&mut self.counters.discarded),
        }
    }

    // Counts a header and tells its events, in the order of the layers.
    pub(crate) fn note_header(&mut self, events: &mut Ring<'_, EventRecord>, told: HeaderEvents)
        ensures { log_of self.new events.new ≡ header_noted told (log_of self.old events.old) }
    {
        self.mark(told.header);
        self.post_if(events, told.header.map(Event::Header));
        self.post_if(events, told.boundary.map(Event::Boundary));
        self.post_if(events, told.descrambler.map(Event::Descrambler));
    }

    // Counts a cell that was handed up, and tells where it was refused.
    pub(crate) fn note_reply(
        &mut self,
        events: &mut Ring<'_, EventRecord>,
        reply: Result<(), SinkCause>,
    )
        ensures { log_of self.new events.new ≡ replied reply (log_of self.old events.old) }
    {
        match reply {
            Ok(()) => bump(&mut self.counters.taken),
            Err(cause) => {
                match cause {
                    SinkCause::Full => bump(&mut self.counters.full),
                    SinkCause::NotServed => bump(&mut self.counters.unserved),
                }
                self.post(events, Event::Sink(cause));
            }
        }
    }
}
