//! Runs a sending and a receiving end over a line with damage, as the commands on standard input say, and prints what went up.
#![tactic(auto)]

use damaged_line::command::Command;
use damaged_line::outcome::Outcome;
use damaged_line::tally::Tally;
use damaged_line::trial::Trial;
use receiver::event::EventRecord;
use ring::ring::{MOST_PLACES, Ring};
use std::io;
use std::io::{BufRead, BufReader};
use std::num::Saturating;

fn main(rt: HostRuntime) -> anyhow::Result<()> {
    run(&rt)
}

fn run(rt: &HostRuntime) -> anyhow::Result<()> {
    let heap = rt.alloc();
    let mut trial = Trial::new();
    let mut total = Tally::default();
    let mut line_number = Saturating(0u64);
    for line in BufReader::new(heap, rt.stdin())?.split(heap, b'\n') {
        let line = line?;
        line_number += 1;
        match Command::read(line.as_slice().trim_ascii()) {
            Ok(Some(command)) => carry_out(rt, &mut trial, command, &mut total)?,
            Ok(None) => {}
            Err(malformed) => println!(rt; "line {line_number}: {malformed}")?,
        }
    }
    println!(rt; "cells: {total}")?;
    rt.println(trial.readings())?;
    Ok(())
}

// Carries a command out, and prints what came of it, and its events.
fn carry_out(
    rt: &HostRuntime,
    trial: &mut Trial,
    command: Command,
    total: &mut Tally,
) -> anyhow::Result<()> {
    // events of one command behind these are lost, and counted
    let mut places = [EventRecord::default(); MOST_PLACES];
    let mut events = Ring::new(&mut places);
    let outcome = trial.carry_out(command, &mut events);
    if let Outcome::Went(counts) = outcome {
        total.add(counts);
    }
    println!(rt; "{command}: {outcome}")?;
    list_events(rt, &mut events)?;
    Ok(())
}

fn list_events(rt: &impl Print, events: &mut Ring<'_, EventRecord>) -> io::Result<()> {
    while let Ok(event) = events.pop() {
        println!(rt; "  {event}")?;
    }
    Ok(())
}
