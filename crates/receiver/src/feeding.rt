//! Feeding octets of the line.
ghost use Rattle.std.specs.Prelude.{◌≡◌, ◌<◌, ◌≤◌, [], ◌∷◌};
ghost use Rattle.cell.specs.Header.{kind_of};
ghost use Rattle.receiver.specs.Book.{brought, cell_noted, log_of};
ghost use Rattle.receiver.specs.Feed.{events_of, Works, FeedAnswer, Untouched, FeedLaws};
ghost use Rattle.receiver.specs.Handing.{Handed, NotAsked, Unasked, taken};
ghost use Rattle.receiver.specs.Run.{bit_at, octet_bits, bits_of, cell_in, user_cell, user_by};

use crate::event::{EventRecord, SinkCause};
use crate::handing::hand_up;
use crate::receiver::Receiver;
use cell::header::Header;
use cell::refusal::Refusal;
use cell::sorting::{SortedCell, sort};
use ports::sink::Sink;
use ring::ring::Ring;
use tracker::tracker::Moment;

/// A feed takes no more octets than this.
pub const MOST_OCTETS: usize = 4096;

/// A feed ends no more cells than this: the largest has the octets of 77 cells and a part.
pub const MOST_CELLS: usize = 78;

// The sink and the ring stay two parameters: the prover doesn't cover a struct of loans made of a field and of two parameters, and each call
// would have to say that it still holds the same.
impl Receiver {
    // Sorts a kept cell: idle cells vanish, the payload of an F3 cell is stored, a user cell is handed up.
    fn deliver<S: Sink>(
        &mut self,
        header: Header,
        sink: &mut S,
        events: &mut Ring<'_, EventRecord>,
    ) -> Option<Result<(), SinkCause>>
        ensures tracker { self.new.tracker ≡ self.old.tracker }
        ensures handed { Handed (user_by (kind_of header.0) (record { header = header.0; payload = self.old.tracker.payload })) (S.Sink.state sink.old) result (S.Sink.state sink.new) }
        ensures unasked { NotAsked (user_by (kind_of header.0) (record { header = header.0; payload = self.old.tracker.payload })) sink.old sink.new }
        ensures noted { log_of self.new.book events.new ≡ cell_noted (kind_of header.0) self.old.tracker.payload result (log_of self.old.book events.old) }
    {
        match sort(header, self.tracker.payload()) {
            SortedCell::Idle => None,
            SortedCell::F3(payload) => {
                self.book.store_f3(payload);
                None
            }
            SortedCell::User(header, payload) => {
                let reply = hand_up(sink, header, payload);
                self.book.note_reply(events, reply);
                Some(reply)
            }
        }
    }

    // Follows up what a bit brought.
    fn follow<S: Sink>(
        &mut self,
        moment: Option<Moment>,
        sink: &mut S,
        events: &mut Ring<'_, EventRecord>,
    ) -> Option<Result<(), SinkCause>>
        ensures tracker { self.new.tracker ≡ self.old.tracker }
        ensures handed { Handed (user_cell (cell_in moment self.old.tracker.payload)) (S.Sink.state sink.old) result (S.Sink.state sink.new) }
        ensures unasked { NotAsked (user_cell (cell_in moment self.old.tracker.payload)) sink.old sink.new }
        ensures noted { log_of self.new.book events.new ≡ brought moment self.old.tracker.payload result (log_of self.old.book events.old) }
    {
        match moment? {
            Moment::Header(told) => {
                self.book.note_header(events, told);
                None
            }
            Moment::Cell(header) => self.deliver(header, sink, events),
        }
    }

    // One bit of the line, with all that it brings; how many cells the sink took.
    #[tactic(auto, using(crate::proofs::Runs::works_one, crate::proofs::Unasked::unasked_one))]
    fn take_bit<S: Sink>(
        &mut self,
        bit: bool,
        sink: &mut S,
        events: &mut Ring<'_, EventRecord>,
    ) -> u32
        ensures few { result ≤ 1 }
        ensures works { Works self.old (S.Sink.state sink.old) (events_of events.old) (bit ∷ []) result self.new (S.Sink.state sink.new) (events_of events.new) }
        ensures unasked { Unasked self.old.tracker (bit ∷ []) sink.old sink.new }
    {
        let moment = self.tracker.push_bit(bit);
        self.book.count_bit();
        let reply = self.follow(moment, sink, events);
        cells_taken(reply)
    }

    // One octet, the most significant bit first.
    #[tactic(auto, using(crate::proofs::Runs::works_none, crate::proofs::Runs::works_same, crate::proofs::Octets::all_eight, crate::proofs::Unasked::unasked_kept, crate::proofs::Unasked::unasked_same))]
    fn take_octet<S: Sink>(
        &mut self,
        octet: u8,
        sink: &mut S,
        events: &mut Ring<'_, EventRecord>,
    ) -> u32
        ensures few { result ≤ 8 }
        ensures works { Works self.old (S.Sink.state sink.old) (events_of events.old) (octet_bits octet) result self.new (S.Sink.state sink.new) (events_of events.new) }
        ensures unasked { Unasked self.old.tracker (octet_bits octet) sink.old sink.new }
    {
        let mut taken = 0;
        // over the numbers of the bits: an octet is no list of them
        for k in 0..8u8 {
            taken += self.take_bit(bit_at(octet, k), sink, events);
        }
        taken
    }

    /// Takes 1 to 4,096 octets of the line, and answers how many cells the sink took. Refuses no octets, and more than 4,096.
    #[tactic(auto, using(crate::proofs::Runs::works_no_octet, crate::proofs::Runs::works_octet, crate::proofs::Runs::feeds, crate::proofs::Unasked::unasked_kept, crate::proofs::Unasked::unasked_octet, crate::proofs::Unasked::unasked_all))]
    pub fn feed<S: Sink>(
        &mut self,
        octets: &[u8],
        sink: &mut S,
        events: &mut Ring<'_, EventRecord>,
    ) -> Result<u32, Refusal>
        ensures answer { FeedAnswer octets.now self.old (S.Sink.state sink.old) (events_of events.old) result self.new (S.Sink.state sink.new) (events_of events.new) }
        ensures untouched { Untouched result sink.old sink.new events.old events.new }
        ensures unasked { Unasked self.old.tracker (bits_of octets.now) sink.old sink.new }
    {
        if octets.is_empty() {
            return Err(Refusal::NoOctets);
        }
        if octets.len() > MOST_OCTETS {
            return Err(Refusal::TooManyOctets);
        }
        let mut taken = 0;
        for octet in octets {
            taken += self.take_octet(*octet, sink, events);
        }
        Ok(taken)
    }
}

// Bit k of an octet, the most significant being 0.
fn bit_at(octet: u8, k: u8) -> bool
    requires { k < 8 }
    ensures { result ≡ bit_at octet k }
{
    (octet >> (7 - k)) % 2 == 1
}

// How many cells the sink took by this reply.
fn cells_taken(reply: Option<Result<(), SinkCause>>) -> u32
    ensures value { result ≡ taken reply }
    ensures few { result ≤ 1 }
{
    match reply {
        Some(Ok(())) => 1,
        Some(Err(_)) | None => 0,
    }
}

/// What holds of runs of bits: this call does nothing, and its contract is the proof of that.
#[tactic(auto, using(crate::proofs::Laws::feed_laws))]
pub fn feed_laws_hold()
    ensures { FeedLaws }
{}
