//! The line, bit by bit.
ghost use Rattle.std.specs.Prelude.{◌≡◌};
ghost use Rattle.tracker.specs.Tracker.{bit_step, bit_brings, moved, brings_at, start};

use crate::events::{BoundaryCause, HeaderEvents};
use crate::state::{Control, Headed, LAST_BIT, LAST_HEADER_BIT, LAST_OCTET, Lock, Mode, Place};
use crate::window::Window;
use cell::header::Header;
use cell::sizes::PAYLOAD_OCTETS;
use scrambler::payload::mask_payload;

/// The receiving end as far as it depends on the line's bits alone. It cannot be copied: there is no other way to one than its bits.
#[derive(Debug, Drop)]
pub struct Tracker {
    window: Window,
    control: Control,
    // the payload of the cell that is coming in
    payload: [u8; PAYLOAD_OCTETS],
}

/// What the last bit of a header or of a cell brings.
#[derive(Clone, Copy, Debug, PartialEq, Eq, Hash)]
pub enum Moment {
    Header(HeaderEvents),
    /// the cell is kept, and has this header
    Cell(Header),
}

impl Default for Tracker {
    ghost is_default = { λ tracker. tracker ≡ start };

    fn default() -> Tracker {
        Tracker::new()
    }
}

impl Tracker {
    /// A tracker that has seen no bit.
    pub fn new() -> Tracker
        ensures { result ≡ start }
    {
        Tracker {
            window: Window::default(),
            control: Control {
                mode: Mode::Correction,
                place: Place::Hunt,
            },
            payload: [0; PAYLOAD_OCTETS],
        }
    }

    /// Forgets all bits.
    pub fn reset(&mut self)
        ensures { self.new ≡ start }
    {
        *self = Tracker::new();
    }

    // The state that headers change.
    pub(crate) fn control(&self) -> Control
        ensures { result ≡ self.now.control }
    {
        self.control
    }

    /// The payload of the cell that is coming in; after its last bit, descrambled if the cell is kept.
    pub fn payload(&self) -> &[u8; PAYLOAD_OCTETS]
        ensures { result.now ≡ self.now.payload }
    {
        &self.payload
    }

    /// Takes one bit of the line, and tells what it brought.
    pub fn push_bit(&mut self, bit: bool) -> Option<Moment>
        ensures next { self.new ≡ bit_step self.old bit }
        ensures brings { result ≡ bit_brings self.old bit }
    {
        self.window.push(bit);
        // most bits only count down, which needs no copy of the place
        match &mut self.control.place {
            Place::Hunt => self.try_header(),
            Place::Payload { bits, .. } if *bits > 0 => {
                *bits -= 1;
                None
            }
            &mut Place::Payload {
                octets,
                kept,
                lock,
                ..
            } => self.end_octet(octets, kept, lock),
            Place::Header { bits, .. } if *bits > 0 => {
                *bits -= 1;
                None
            }
            &mut Place::Header { lock, .. } => self.end_header(lock),
        }
    }

    // Tries the last 40 bits as a header; one that agrees ends the hunt.
    fn try_header(&mut self) -> Option<Moment>
        requires { self.old.control.place ≡ Place.Hunt }
        ensures next { self.new ≡ moved Place.Hunt self.old }
        ensures brings { result ≡ brings_at Place.Hunt self.old }
    {
        if self.window.is_whole() && self.window.agrees() {
            self.control.place = Place::Payload {
                octets: LAST_OCTET,
                bits: LAST_BIT,
                kept: None,
                lock: Lock::on(self.window),
            };
            Some(Moment::Header(HeaderEvents {
                header: None,
                boundary: Some(BoundaryCause::Presync),
                descrambler: None,
            }))
        } else {
            None
        }
    }

    // Puts a payload octet that is whole to its place; the last one of a kept cell descrambles them all.
    fn end_octet(&mut self, octets: u8, kept: Option<Header>, lock: Lock) -> Option<Moment>
        ensures next { self.new ≡ moved (Place.Payload octets 0 kept lock) self.old }
        ensures brings { result ≡ brings_at (Place.Payload octets 0 kept lock) self.old }
    {
        let at = LAST_OCTET.saturating_sub(octets);
        self.payload[usize::from(at)] = self.window.octet();
        if octets > 0 {
            self.control.place = Place::Payload {
                octets: octets - 1,
                bits: LAST_BIT,
                kept,
                lock,
            };
            return None;
        }
        self.control.place = Place::Header {
            bits: LAST_HEADER_BIT,
            lock,
        };
        let header = kept?;
        if let Some(phase) = lock.descrambler.phase() {
            mask_payload(phase, &mut self.payload);
        }
        Some(Moment::Cell(header))
    }

    // Follows the rules on a header that is whole.
    fn end_header(&mut self, lock: Lock) -> Option<Moment>
        ensures next { self.new ≡ moved (Place.Header 0 lock) self.old }
        ensures brings { result ≡ brings_at (Place.Header 0 lock) self.old }
    {
        let Headed { control, events } = lock.take_header(self.control.mode, self.window);
        self.control = control;
        Some(Moment::Header(events))
    }
}
