//! The state after a header and the events on it, decided together.
ghost use Rattle.std.specs.Prelude.{◌≡◌, Some};
ghost use Rattle.tracker.specs.Deciding.{at_header, hunt_from};
ghost use Rattle.tracker.specs.Events.{decided};
ghost use Rattle.tracker.specs.Rules.{in_step, sampled, payload_to, entered, locked_on};

use crate::events::{BoundaryCause, DescramblerCause, HeaderCause, HeaderEvents};
use crate::rules::{WRONG_HEADERS_TO_HUNT, acquire, hold, mend, mode_begun, verify};
use crate::state::{
    Control, Delineation, Descrambler, Headed, LAST_BIT, LAST_OCTET, Lock, Mode, Place,
};
use crate::window::Window;
use cell::header::Header;
use cell::verdict::Verdict;

// The samples of the last sixteen headers, with those of one header more.
#[tactic(auto, unfolding(crate::specs::Rules::sampled))]
fn sampled(samples: u32, window: Window) -> u32
    ensures { result ≡ sampled samples window.bits }
{
    samples % 0x4000_0000 * 4 + u32::from(window.samples())
}

impl Lock {
    // What is known after a header that ends a hunt.
    pub(crate) fn on(window: Window) -> Lock
        ensures { result ≡ locked_on window.bits }
    {
        Lock {
            delineation: Delineation::Presync(0),
            descrambler: Descrambler::Acquisition(1),
            samples: sampled(0, window),
        }
    }

    // In SYNC and Steady.
    fn in_step(self) -> bool
        ensures { result ≡ in_step self }
    {
        matches!(
            (self.delineation, self.descrambler),
            (Delineation::Sync(_), Descrambler::Steady(_, _))
        )
    }

    // The same once a header has come: with its samples, and at the phase of its cell.
    fn at_header(self, window: Window) -> Lock
        ensures { result ≡ at_header self window.bits }
    {
        Lock {
            delineation: self.delineation,
            descrambler: self.descrambler.at_next_cell(),
            samples: sampled(self.samples, window),
        }
    }

    // The state after a header and the events on it, decided together by the state before it and the verdict on it. PRESYNC is never in Steady, but
    // the same rules would hold there.
    pub(crate) fn take_header(self, mode: Mode, window: Window) -> Headed
        ensures { result ≡ decided mode self window.bits }
    {
        let lock = self.at_header(window);
        let verdict = lock.descrambler.verdict(mode, window);
        match (lock.delineation, lock.descrambler, verdict) {
            // a wrong header loses PRESYNC, and the seventh in a row SYNC
            (Delineation::Presync(_), _, Verdict::OneWrongBit(_) | Verdict::PastMending) => {
                lock.lose_boundary(BoundaryCause::LostFromPresync, mode, verdict)
            }
            (Delineation::Sync(n), _, Verdict::OneWrongBit(_) | Verdict::PastMending)
                if n >= WRONG_HEADERS_TO_HUNT - 1 => {
                lock.lose_boundary(BoundaryCause::LostFromSync, mode, verdict)
            }
            // those before the seventh are counted
            (
                Delineation::Sync(n),
                Descrambler::Acquisition(_),
                Verdict::OneWrongBit(_) | Verdict::PastMending,
            ) => {
                let next = (Descrambler::Acquisition(0), None);
                lock.enter((Delineation::Sync(n + 1), None), next, (mode, None), None)
            }
            (
                Delineation::Sync(n),
                Descrambler::Verification(_, _),
                Verdict::OneWrongBit(_) | Verdict::PastMending,
            ) => {
                let next = (lock.descrambler, None);
                lock.enter((Delineation::Sync(n + 1), None), next, (mode, None), None)
            }
            (
                Delineation::Sync(n),
                Descrambler::Steady(confidence, phase),
                Verdict::OneWrongBit(bit),
            ) => {
                let next = hold(window.freed(phase), confidence, phase);
                let taken = Some(window.mended(phase, bit));
                lock.enter((Delineation::Sync(n + 1), None), next, mend(verdict), taken)
            }
            (Delineation::Sync(n), Descrambler::Steady(confidence, phase), Verdict::PastMending) =>
                {
                    let next = hold(window.freed(phase), confidence, phase);
                    lock.enter((Delineation::Sync(n + 1), None), next, mend(verdict), None)
                }
            // a right one is counted in PRESYNC, and ends SYNC's row of wrong ones
            (boundary, Descrambler::Acquisition(confidence), Verdict::Clean) => {
                let next = acquire(confidence, lock.samples);
                lock.enter(boundary.confirm(), next, (mode, None), None)
            }
            (boundary, Descrambler::Verification(confidence, phase), Verdict::Clean) => {
                let (descrambler, told) = verify(window.is_as_predicted(phase), confidence, phase);
                let mode = mode_begun(descrambler, mode);
                lock.enter(boundary.confirm(), (descrambler, told), (mode, None), None)
            }
            (boundary, Descrambler::Steady(confidence, phase), Verdict::Clean) => {
                let next = hold(window.freed(phase), confidence, phase);
                let taken = Some(window.header(phase));
                lock.enter(boundary.confirm(), next, mend(verdict), taken)
            }
        }
    }

    // HUNT, after a wrong header that loses the boundary. The phase is lost with it.
    fn lose_boundary(self, cause: BoundaryCause, mode: Mode, verdict: Verdict) -> Headed
        ensures { result ≡ hunt_from self.descrambler cause mode verdict }
    {
        let ((mode, header), descrambler) = match self.descrambler {
            Descrambler::Acquisition(_) => ((mode, None), None),
            Descrambler::Verification(_, _) => {
                ((mode, None), Some(DescramblerCause::LeftForAcquisition))
            }
            Descrambler::Steady(_, _) => {
                (mend(verdict), Some(DescramblerCause::LeftForAcquisition))
            }
        };
        Headed {
            control: Control {
                mode,
                place: Place::Hunt,
            },
            events: HeaderEvents {
                header,
                boundary: Some(cause),
                descrambler,
            },
        }
    }

    // The payload after a header that leaves a boundary, by what each layer has come to, with the event on the way.
    fn enter(
        self,
        boundary: (Delineation, Option<BoundaryCause>),
        descrambler: (Descrambler, Option<DescramblerCause>),
        header: (Mode, Option<HeaderCause>),
        taken: Option<Header>,
    ) -> Headed
        ensures control { result.control ≡ entered self taken descrambler.0 self.samples header.0 (Some boundary.0) }
        ensures events { result.events ≡ record { header = header.1; boundary = boundary.1; descrambler = descrambler.1 } }
    {
        let (delineation, boundary) = boundary;
        let (descrambler, cause) = descrambler;
        let (mode, header) = header;
        let next = Lock {
            delineation,
            descrambler,
            samples: self.samples,
        };
        Headed {
            control: Control {
                mode,
                place: self.payload_to(next, taken),
            },
            events: HeaderEvents {
                header,
                boundary,
                descrambler: cause,
            },
        }
    }

    // The payload that comes after a header, of a cell that is kept or not.
    fn payload_to(self, next: Lock, taken: Option<Header>) -> Place
        ensures { result ≡ payload_to self next taken }
    {
        Place::Payload {
            octets: LAST_OCTET,
            bits: LAST_BIT,
            kept: if self.in_step() && next.in_step() {
                taken
            } else {
                None
            },
            lock: next,
        }
    }
}
