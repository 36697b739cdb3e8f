//! The libraries in use: one user cell goes over a line. All places are lent, and nothing is allocated.
#![tactic(auto)]

use cell::header::Header;
use hex_digits::digits::Hex;
use ports::user_cell::UserCell;
use receiver::event::EventRecord;
use receiver::feeding::MOST_CELLS;
use receiver::receiver::Receiver;
use ring::ring::{MOST_PLACES, Ring};
use sender::sender::Sender;

// So many cells go out before one that is wanted whole: the receiving end finds the line by them.
const LEAD_CELLS: u32 = 24;

fn main(rt: HostRuntime) -> anyhow::Result<()> {
    let mut sender = Sender::new();
    sender.start(0x3ecf_ede8)?;
    let mut waiting_places = [UserCell::blank(); 1];
    let mut waiting = Ring::new(&mut waiting_places);

    let mut receiver = Receiver::new();
    let mut cell_places = [UserCell::blank(); MOST_CELLS];
    let mut cells = Ring::new(&mut cell_places);
    let mut event_places = [EventRecord::default(); MOST_PLACES];
    let mut events = Ring::new(&mut event_places);

    for number in 0..=LEAD_CELLS {
        if number == LEAD_CELLS {
            // VPI 0 and VCI 100
            waiting.push(UserCell::new(Header(0x0000_0640), &[1; 48])?)?;
        }
        let (_, octets) = sender.send_next(&mut waiting);
        receiver.feed(&octets, &mut cells, &mut events)?;
    }

    println!(rt; "cells {}, events {}", cells.len(), events.len())?;
    println!(rt; "{}", events.pop()?)?;
    println!(rt; "{}", Hex(&cells.pop()?.octets()))?;
    Ok(())
}
