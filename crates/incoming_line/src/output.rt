//! What goes out after each feed: the cells and the events that it brought.
ghost use Rattle.ring.specs.Ring.{held};
ghost use Rattle.ports.specs.Cell.{octets};
ghost use Rattle.ports.specs.UserCell.{cell_of};
ghost use Rattle.incoming_line.specs.Output.{written, cells_written, events_listed, Emptied, Wrote};

use cell::sizes::HEADER_OCTETS;
use ports::user_cell::UserCell;
use receiver::event::EventRecord;
use ring::ring::Ring;
use std::io;
use std::io::Write;

/// Writes all cells of a ring, the oldest first, whole or only their payloads. None is left.
#[tactic(auto, using(crate::proofs::Written::nothing_written, crate::proofs::Written::cell_written, crate::proofs::Written::all_cells_written))]
pub fn write_cells<W: Write>(
    cells: &mut Ring<'_, UserCell>,
    payloads: bool,
    out: &mut W,
) -> io::Result<()>
    ensures emptied { Emptied cells.old result cells.new }
    ensures wrote { Wrote (W.contents out.old) result (W.contents out.new) (cells_written payloads (held cells.old)) }
{
    while let Ok(cell) = cells.pop() {
        write_cell(cell, payloads, out)?;
    }
    Ok(())
}

/// Lists all events of a ring, the oldest first, or lets them go. None is left.
#[tactic(auto, using(crate::proofs::Written::nothing_written, crate::proofs::Written::event_listed, crate::proofs::Written::event_let_go, crate::proofs::Written::all_events_listed))]
pub fn list_events<W: Write>(
    events: &mut Ring<'_, EventRecord>,
    listed: bool,
    out: &mut W,
) -> io::Result<()>
    ensures emptied { Emptied events.old result events.new }
    ensures wrote { Wrote (W.contents out.old) result (W.contents out.new) (events_listed listed (held events.old)) }
{
    while let Ok(event) = events.pop() {
        if listed {
            out.writeln(event)?;
        }
    }
    out.flush()
}

// Writes a cell, whole or only its payload.
fn write_cell<W: Write>(cell: UserCell, payloads: bool, out: &mut W) -> io::Result<()>
    ensures { Wrote (W.contents out.old) result (W.contents out.new) (written payloads (octets (cell_of cell))) }
{
    let octets = cell.octets();
    if payloads {
        out.write_all(&octets[HEADER_OCTETS..])
    } else {
        out.write_all(&octets)
    }
}
