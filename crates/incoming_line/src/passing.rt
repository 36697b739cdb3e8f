//! Passing on: what comes in on the line is fed, and all that it brings is written out.
ghost use Rattle.std.specs.Prelude.{◌≡◌};
ghost use Rattle.ring.specs.Ring.{held};
ghost use Rattle.incoming_line.specs.Output.{cells_written, events_listed, Wrote};
ghost use Rattle.incoming_line.specs.Passing.{PassAnswer};
ghost use Rattle.incoming_line.specs.declared.passing.PassError.TheVariants.{Refused};

use crate::arguments::Arguments;
use crate::line::Line;
use crate::output::{list_events, write_cells};
use cell::refusal::Refusal;
use ports::user_cell::UserCell;
use receiver::event::EventRecord;
use receiver::feeding::{MOST_CELLS, feed_laws_hold};
use ring::ring::{MOST_PLACES, Ring};
use std::error::Error;
use std::io::Write;
use std::{fmt, io};

/// Why what came is not passed on.
#[derive(Debug, Drop)]
pub enum PassError {
    /// the receiving end refuses the octets
    Refused(Refusal),
    /// what they brought cannot be written
    Unwritten(io::Error),
}

impl From<Refusal> for PassError {
    ghost from_gives = { λ refusal error. error ≡ Refused refusal };

    fn from(refusal: Refusal) -> PassError {
        PassError::Refused(refusal)
    }
}

impl fmt::Display for PassError {
    fn fmt<W: fmt::Write>(&self, f: &mut fmt::Formatter<W>) -> fmt::Result {
        match self {
            PassError::Refused(refusal) => write!(f, "{refusal}"),
            PassError::Unwritten(cause) => write!(f, "{cause}"),
        }
    }
}

impl Error for PassError {}

impl Line {
    /// Feeds octets, and writes out all that they bring: the cells to one writer, and the events, if they are asked for, to the other. No cell and
    /// no event is lost for want of places.
    /// Refuses no octets, and more than 4,096, and then nothing changes.
    pub fn pass_on<W: Write, L: Write>(
        &mut self,
        octets: &[u8],
        arguments: Arguments,
        out: &mut W,
        listing: &mut L,
    ) -> Result<(), PassError>
        ensures { PassAnswer arguments octets.now self.old (W.contents out.old) (L.contents listing.old) result self.new (W.contents out.new) (L.contents listing.new) }
    {
        // a feed loses nothing to empty rings of so many places
        feed_laws_hold();
        let mut cell_places = [UserCell::blank(); MOST_CELLS];
        let mut event_places = [EventRecord::default(); MOST_PLACES];
        let mut cells = Ring::new(&mut cell_places);
        let mut events = Ring::new(&mut event_places);
        self.feed(octets, &mut cells, &mut events)?;
        match write_out(&mut cells, &mut events, arguments, out, listing) {
            Ok(()) => Ok(()),
            Err(cause) => Err(PassError::Unwritten(cause)),
        }
    }
}

// Writes the cells of a ring to one writer, and the events of another, if they are asked for, to the other.
fn write_out<W: Write, L: Write>(
    cells: &mut Ring<'_, UserCell>,
    events: &mut Ring<'_, EventRecord>,
    arguments: Arguments,
    out: &mut W,
    listing: &mut L,
) -> io::Result<()>
    ensures written { Wrote (W.contents out.old) result (W.contents out.new) (cells_written arguments.payloads (held cells.old)) }
    ensures listed { Wrote (L.contents listing.old) result (L.contents listing.new) (events_listed arguments.events (held events.old)) }
{
    write_cells(cells, arguments.payloads, out)?;
    list_events(events, arguments.events, listing)
}
