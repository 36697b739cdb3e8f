//! Reads cases from standard input, one to a line, runs each on the library, and writes a line of what came of it.
#![tactic(auto)]

mod cases;
mod outcomes;

use cases::Case;
use std::io;
use std::io::{BufRead, BufReader};

fn main(rt: HostRuntime) -> io::Result<()> {
    let heap = rt.alloc();
    for line in BufReader::new(heap, rt.stdin())?.split(heap, b'\n') {
        let line = line?;
        let Some(case) = Case::read(heap, line.as_slice())? else {
            println!(rt; "malformed")?;
            continue;
        };
        match outcomes::run(&case) {
            Ok(outcome) => println!(rt; "{outcome}")?,
            Err(refusal) => println!(rt; "refused {}", refusal.number())?,
        }
    }
    Ok(())
}
