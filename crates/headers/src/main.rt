//! Reads captured headers, one to a line, and says of each what it is and what is wrong with it.
#![tactic(auto)]

use captured_headers::remark::Remark;
use captured_headers::tally::Tally;
use std::io;
use std::io::{BufRead, BufReader};

fn main(rt: HostRuntime) -> anyhow::Result<()> {
    run(&rt)
}

fn run(rt: &HostRuntime) -> anyhow::Result<()> {
    let mut input = BufReader::new(rt.alloc(), rt.stdin())?;
    let mut line = Vec::new(rt.alloc());
    let mut tally = Tally::default();
    // Nothing says that an input ends, so the numbers of its lines bound the loop: a `while` over its lines would have no measure, and
    // `split` would not tell whether the last line has an end.
    for line_number in 1..u64::MAX {
        line.clear();
        if input.read_until(b'\n', &mut line)? == 0 {
            break;
        }
        print(rt, tally.take(line_number, &line))?;
    }
    rt.println(tally)?;
    Ok(())
}

fn print(rt: &HostRuntime, remark: Remark) -> io::Result<()> {
    match remark {
        Ok(Some(report)) => rt.println(report),
        Ok(None) => Ok(()),
        Err(complaint) => rt.println(complaint),
    }
}
