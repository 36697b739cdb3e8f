//! Reads a block from standard input and writes the cells that carry it, as the octets of a line, to standard output: a lead of
//! cells without users, the cells of the block, and 8 cells more. A summary goes to standard error.
#![tactic(auto)]

use cell::sizes::PAYLOAD_OCTETS;
use command_line::fault::Fault;
use command_line::input::fill;
use command_line::words::{word, words};
use outgoing_line::arguments::Arguments;
use outgoing_line::f3_payload;
use outgoing_line::f3_payload::PayloadError;
use outgoing_line::line::Line;
use std::io::{BufWriter, Write};
use std::process::ExitCode;
use std::{fs, io};

// So many octets are read at a time. They fill whole cells, so that only the last cell of the block is filled with zeros.
const PART_OCTETS: usize = 65_520;

// So many cells go out behind the block, so that its last bit comes whole also where the receiving end's octets begin elsewhere.
const TRAIL_CELLS: u32 = 8;

const USAGE: &str =
    "usage: send [--phase N] [--lead N] [--vpi N] [--vci N] [--header N] [--f3 FILE] < block > line
  --phase N    the phase of the first cell, 1 to 2147483647 (1)
  --lead N     how many cells go out before the block (32)
  --vpi N      virtual path of the block's cells, 0 to 255 (0)
  --vci N      virtual channel of the block's cells, 0 to 65535 (100)
  --header N   their whole header, in place of path and channel; not that of idle cells (1) or F3 cells (9)
  --f3 FILE    a file of 48 octets, the payload of F3 cells (48 octets 0x6A)
A number is decimal, or hexadecimal behind 0x.";

fn main(rt: HostRuntime) -> anyhow::Result<ExitCode> {
    run(&rt)
}

fn run(rt: &HostRuntime) -> anyhow::Result<ExitCode> {
    let words = words(rt, USAGE)?;
    let arguments = match Arguments::parse(&words) {
        Ok(arguments) => arguments,
        Err(fault) => return Ok(fault.refuse(rt, USAGE, &words)?),
    };
    let mut line = Line::start(arguments.phase)?;
    if let Some(at) = arguments.f3 {
        match payload_in(rt, word(&words, at)) {
            Ok(payload) => line.set_f3(&payload),
            Err(why) => return Ok(Fault { at, why }.refuse(rt, USAGE, &words)?),
        }
    }
    let mut part = [0u8; PART_OCTETS];
    send(rt, &mut line, arguments, &mut part)?;
    rt.eprintln(line.summary())?;
    Ok(ExitCode::SUCCESS)
}

// The payload that a file holds.
fn payload_in(rt: &HostRuntime, path: &str) -> Result<[u8; PAYLOAD_OCTETS], PayloadError> {
    f3_payload::read(&mut fs::open(rt, path)?)
}

// Sends the lead, the block from standard input, and the trail.
fn send(
    rt: &HostRuntime,
    line: &mut Line,
    arguments: Arguments,
    part: &mut [u8],
) -> io::Result<()> {
    let mut out = BufWriter::new(rt.alloc(), rt.stdout())?;
    line.send_unused(arguments.lead, &mut out)?;
    // Nothing says that an input ends, so a count bounds the loop.
    for _ in 0..u64::MAX {
        let octets = fill(&mut rt.stdin(), part)?;
        line.count_octets(octets);
        line.send_block(arguments.header, &part[0..octets], &mut out)?;
        if octets < part.len() {
            break;
        }
    }
    line.send_unused(TRAIL_CELLS, &mut out)?;
    out.flush()
}
