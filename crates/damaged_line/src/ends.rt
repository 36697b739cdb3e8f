//! A sending and a receiving end, of which the theorem of the line holds: that is part of the type, and each call keeps it.
ghost use Rattle.std.specs.Prelude.{◌≡◌};
ghost use Rattle.receiver.specs.Feed.{was_reset, events_of, FeedAnswer, Untouched};
ghost use Rattle.receiver.specs.Handing.{Unasked};
ghost use Rattle.receiver.specs.Run.{bits_of};
ghost use Rattle.receiver_words.specs.Readings.{readings_of};
ghost use Rattle.sender.specs.Sender.{StartAnswer, Sends, NotAsked, with_f3};
ghost use Rattle.damaged_line.specs.Ends.{Pair, made_pair, Stand};

use cell::header::Kind;
use cell::refusal::Refusal;
use cell::sizes::{LINE_OCTETS, PAYLOAD_OCTETS};
use line::theorem::line_theorem_holds;
use ports::sink::Sink;
use ports::source::Source;
use receiver::event::EventRecord;
use receiver::receiver::Receiver;
use receiver_words::readings::Readings;
use ring::ring::Ring;
use sender::sender::Sender;
use std::marker::Model;

/// Both ends. Calls on each lead from its making to where it stands, and what the theorem of the line says holds of these calls.
#[derive(Drop)]
pub struct Ends {
    sender: Sender,
    receiver: Receiver,
}

impl Model for Ends {
    ghost Value = { Pair };

    ghost view = { λ e. record { sender = e.sender; receiver = e.receiver } };

    ghost invariant = { λ e. Stand (record { sender = e.sender; receiver = e.receiver }) };
}

impl Ends {
    /// Both ends as they are made.
    #[tactic(auto, using(crate::proofs::Standing::made_stand))]
    pub fn new() -> Ends
        ensures { result ≡ made_pair }
    {
        line_theorem_holds();
        Ends {
            sender: Sender::new(),
            receiver: Receiver::new(),
        }
    }

    /// The sending end starts again at this phase. Refuses a phase of 0 or above 2^31 - 1.
    pub fn start(&mut self, phase: u32) -> Result<(), Refusal>
        ensures answer { StartAnswer self.old.sender phase result self.new.sender }
        ensures receiver { self.new.receiver ≡ self.old.receiver }
    {
        line_theorem_holds();
        self.sender.start(phase)
    }

    /// Sets the payload of the F3 cells that the sending end sends from now on.
    pub fn set_f3(&mut self, payload: &[u8; PAYLOAD_OCTETS])
        ensures sender { self.new.sender ≡ with_f3 self.old.sender payload.now }
        ensures receiver { self.new.receiver ≡ self.old.receiver }
    {
        line_theorem_holds();
        let Ok(()) = self.sender.set_f3(payload) else {
            unreachable!()
        };
    }

    /// The kind of the sending end's next cell, and its 53 octets.
    pub fn send<S: Source>(&mut self, source: &mut S) -> (Kind, [u8; LINE_OCTETS])
        ensures sends { Sends self.old.sender (S.Source.waiting source.old) result.0 result.1 self.new.sender (S.Source.waiting source.new) }
        ensures source { NotAsked result.0 source.old source.new }
        ensures receiver { self.new.receiver ≡ self.old.receiver }
    {
        line_theorem_holds();
        self.sender.send_next(source)
    }

    /// Octets come at the receiving end. Refuses no octets, and more than 4,096.
    pub fn feed<K: Sink>(
        &mut self,
        octets: &[u8],
        sink: &mut K,
        events: &mut Ring<'_, EventRecord>,
    ) -> Result<u32, Refusal>
        ensures answer { FeedAnswer octets.now self.old.receiver (K.Sink.state sink.old) (events_of events.old) result self.new.receiver (K.Sink.state sink.new) (events_of events.new) }
        ensures untouched { Untouched result sink.old sink.new events.old events.new }
        ensures unasked { Unasked self.old.receiver.tracker (bits_of octets.now) sink.old sink.new }
        ensures sender { self.new.sender ≡ self.old.sender }
    {
        line_theorem_holds();
        self.receiver.feed(octets, sink, events)
    }

    /// The receiving end begins again.
    pub fn reset(&mut self)
        ensures receiver { self.new.receiver ≡ was_reset self.old.receiver }
        ensures sender { self.new.sender ≡ self.old.sender }
    {
        line_theorem_holds();
        self.receiver.reset();
    }

    /// What can be read of the receiving end. The contract also says that both ends stand: the theorem of the line holds of all calls on them.
    pub fn readings(&self) -> Readings
        ensures value { result ≡ readings_of self.now.receiver }
        ensures stand { Stand self.now }
    {
        Readings::from(&self.receiver)
    }
}
