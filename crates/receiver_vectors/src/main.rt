//! Reads calls from standard input, one to a line, carries each out on a receiving end, and writes what came of it: the answer, the
//! cells and the events that it left, and the state.
#![tactic(auto)]

use calls::{Call, SinkKind};
use end::End;
use hex_digits::digits::Hex;
use ports::closed::Closed;
use ports::split::Split;
use ports::user_cell::UserCell;
use receiver::event::EventRecord;
use receiver::feeding::MOST_CELLS;
use ring::ring::{MOST_PLACES, Ring};
use std::io;
use std::io::{BufRead, BufReader};

mod calls;
mod display;
mod end;
mod number;

fn main(rt: HostRuntime) -> io::Result<()> {
    let heap = rt.alloc();
    let mut end = End::new(0, SinkKind::Closed);
    for line in BufReader::new(heap, rt.stdin())?.split(heap, b'\n') {
        let line = line?;
        match Call::read(heap, line.as_slice())? {
            Some(call) => carry_out(&rt, &mut end, &call)?,
            None => println!(rt; "malformed")?,
        }
        println!(rt; "{end}")?;
    }
    Ok(())
}

// Carries a call out with rings that are empty, and empties them.
fn carry_out(rt: &impl Print, end: &mut End, call: &Call) -> io::Result<()> {
    let mut cell_places = [UserCell::blank(); MOST_CELLS];
    let mut event_places = [EventRecord::default(); MOST_PLACES];
    let cells = (end.cell_places() as usize).min(MOST_CELLS);
    let events = (end.event_places as usize).min(MOST_PLACES);
    let mut cells = Ring::new(&mut cell_places[..cells]);
    let mut events = Ring::new(&mut event_places[..events]);
    // the sinks are of three types
    let answer = match end.sink {
        SinkKind::Ring(_) => end.call(call, &mut cells, &mut events),
        SinkKind::Closed => end.call(call, &mut Closed, &mut events),
        SinkKind::Split { boundary, .. } => {
            let mut sink = Split {
                left: &mut cells,
                right: Closed,
                boundary,
            };
            end.call(call, &mut sink, &mut events)
        }
    };
    match answer {
        Ok(answer) => println!(rt; "{answer}")?,
        Err(refusal) => println!(rt; "feed refused {}", refusal.number())?,
    }
    write_cells(rt, &mut cells)?;
    write_events(rt, &mut events)
}

fn write_cells(rt: &impl Print, cells: &mut Ring<'_, UserCell>) -> io::Result<()> {
    while let Ok(cell) = cells.pop() {
        println!(rt; "cell {}", Hex(&cell.octets()))?;
    }
    Ok(())
}

fn write_events(rt: &impl Print, events: &mut Ring<'_, EventRecord>) -> io::Result<()> {
    while let Ok(EventRecord { bit, layer, cause }) = events.pop() {
        println!(rt; "event {bit} {layer} {cause}")?;
    }
    Ok(())
}
