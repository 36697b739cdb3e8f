//! The trial: two ends, user cells with numbers, and the line between them; and the commands carried out there.
ghost use Rattle.std.specs.Prelude.{◌≡◌, ◌<◌, ◌≤◌, length, option_map};
ghost use Rattle.ports.specs.UserCell.{cell_of};
ghost use Rattle.receiver_words.specs.Readings.{readings_of};
ghost use Rattle.damaged_line.specs.Ends.{Stand};
ghost use Rattle.damaged_line.specs.Trial.{trial_made, payload_of, user_cell, number_after, if_sent, Came, CellSent, CellWent, Passed, Noised, Starts, F3Set, reset_trial, CarriedOut};

use crate::command::Command;
use crate::damage::Damage;
use crate::ends::Ends;
use crate::outcome::Outcome;
use crate::tally::Tally;
use cell::header::{Header, Kind};
use cell::refusal::Refusal;
use cell::sizes::{LINE_OCTETS, PAYLOAD_OCTETS};
use ports::user_cell::UserCell;
use receiver::event::EventRecord;
use receiver::feeding::MOST_CELLS;
use receiver_words::readings::Readings;
use ring::ring::Ring;

// The header of all user cells: VPI 0 and VCI 100.
const HEADER: Header = Header(0x0000_0640);

// How many octets of a payload its cell's number takes, and what stands behind it.
const NUMBER_OCTETS: usize = 4;

const FILL: u8 = 0x55;

// An octet that nobody sent.
const NOISE: u8 = 0xA5;

/// Both ends and the line between them.
#[derive(Drop)]
pub struct Trial {
    ends: Ends,
    // of the user cell that goes out next, the first being 1
    number: u32,
}

impl Trial {
    /// Both ends as they are made.
    pub fn new() -> Trial
        ensures { result ≡ trial_made }
    {
        Trial {
            ends: Ends::new(),
            number: 1,
        }
    }

    /// Carries a command out, and answers what comes of it; its events go into the ring.
    pub fn carry_out(&mut self, command: Command, events: &mut Ring<'_, EventRecord>) -> Outcome
        ensures { CarriedOut command self.old events.old result self.new events.new }
    {
        match command {
            Command::Pass(cells) => Outcome::Went(self.pass(cells, events)),
            Command::Turn(damage) => Outcome::Went(self.pass_cell(&damage, events)),
            Command::Noise(octets) => Outcome::Went(self.noise(octets, events)),
            Command::Start(phase) => Outcome::from(self.start(phase)),
            Command::F3(octet) => {
                self.set_f3(octet);
                Outcome::Accepted
            }
            Command::Reset => {
                self.reset();
                Outcome::Accepted
            }
        }
    }

    /// What can be read of the receiving end. The contract also says that both ends stand: the theorem of the line holds of all calls on them.
    pub fn readings(&self) -> Readings
        ensures value { result ≡ readings_of self.now.ends.receiver }
        ensures stand { Stand self.now.ends }
    {
        self.ends.readings()
    }

    // So many cells are sent, and go over the line as they are sent.
    #[tactic(auto, using(crate::proofs::Rounds::passed_none))]
    fn pass(&mut self, cells: u32, events: &mut Ring<'_, EventRecord>) -> Tally
        ensures { Passed cells self.old events.old result self.new events.new }
    {
        let mut counts = Tally::default();
        for _ in 0..cells {
            counts.add(self.pass_cell(&Damage::none(), events));
        }
        counts
    }

    // So many octets come that nobody sent, one to a feed.
    #[tactic(auto, using(crate::proofs::Rounds::noised_none))]
    fn noise(&mut self, octets: u32, events: &mut Ring<'_, EventRecord>) -> Tally
        ensures { Noised octets self.old events.old result self.new events.new }
    {
        let mut counts = Tally::default();
        for _ in 0..octets {
            counts.add(self.feed(&[NOISE], None, events));
        }
        counts
    }

    // One cell is sent and goes over the line with this damage: what was sent, and what went up.
    fn pass_cell(&mut self, damage: &Damage, events: &mut Ring<'_, EventRecord>) -> Tally
        ensures { CellWent damage.now self.old events.old result self.new events.new }
    {
        let cell = user_cell(self.number);
        let (kind, line) = self.send(cell);
        let mut counts = self.feed(&damage.turned(&line), sent(kind, cell), events);
        counts.count_sent(kind);
        counts
    }

    // The next cell goes out: the user cell that waits, or an F3 cell at its place.
    fn send(&mut self, cell: UserCell) -> (Kind, [u8; LINE_OCTETS])
        ensures { CellSent (cell_of cell) self.old result.0 result.1 self.new }
    {
        let mut place = [UserCell::blank(); 1];
        let mut waiting = Ring::new(&mut place);
        let Ok(()) = waiting.push(cell) else {
            unreachable!()
        };
        let (kind, line) = self.ends.send(&mut waiting);
        self.number = number_after(kind, self.number);
        (kind, line)
    }

    // Octets come at the receiving end, where a user cell was sent just before or none: what went up.
    fn feed(
        &mut self,
        octets: &[u8],
        sent: Option<UserCell>,
        events: &mut Ring<'_, EventRecord>,
    ) -> Tally
        requires some { 0 < length octets.now }
        requires few { length octets.now ≤ 4096 }
        ensures { Came octets.now (option_map cell_of sent) self.old events.old result self.new events.new }
    {
        let mut places = [UserCell::blank(); MOST_CELLS];
        let mut cells = Ring::new(&mut places);
        let Ok(_) = self.ends.feed(octets, &mut cells, events) else {
            unreachable!()
        };
        let mut counts = Tally::default();
        counts.count_up(&mut cells, sent);
        counts
    }

    // The sending end starts again at this phase. Refuses a phase of 0 or above 2^31 - 1.
    fn start(&mut self, phase: u32) -> Result<(), Refusal>
        ensures { Starts phase self.old result self.new }
    {
        self.ends.start(phase)
    }

    // The payload of the F3 cells that go out from now on is 48 times this octet.
    fn set_f3(&mut self, octet: u8)
        ensures { F3Set octet self.old self.new }
    {
        self.ends.set_f3(&[octet; PAYLOAD_OCTETS]);
    }

    // The receiving end begins again.
    fn reset(&mut self)
        ensures { self.new ≡ reset_trial self.old }
    {
        self.ends.reset();
    }
}

// The user cell with this number.
#[tactic(auto, unfolding(crate::specs::Trial::user_cell))]
fn user_cell(number: u32) -> UserCell
    ensures { cell_of result ≡ user_cell number }
{
    let Ok(cell) = UserCell::new(HEADER, &payload_of(number)) else {
        unreachable!()
    };
    cell
}

// Its payload: the number, the most significant octet first, and what stands behind it.
fn payload_of(number: u32) -> [u8; PAYLOAD_OCTETS]
    ensures { result ≡ payload_of number }
{
    let mut payload = [FILL; PAYLOAD_OCTETS];
    payload[..NUMBER_OCTETS].copy_from_slice(&number.to_be_bytes());
    payload
}

// The number of the user cell that goes out after a cell of this kind: where it was F3, the same waits still.
fn number_after(kind: Kind, number: u32) -> u32
    ensures { result ≡ number_after kind number }
{
    match kind {
        Kind::User => number.wrapping_add(1),
        Kind::Idle | Kind::F3 => number,
    }
}

// The user cell, if it went out.
fn sent(kind: Kind, cell: UserCell) -> Option<UserCell>
    ensures { option_map cell_of result ≡ if_sent kind (cell_of cell) }
{
    match kind {
        Kind::User => Some(cell),
        Kind::Idle | Kind::F3 => None,
    }
}
