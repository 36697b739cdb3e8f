//! Reads the octets of a line from standard input, and writes the user cells that come in on it to standard output. A summary goes to
//! standard error, and the events before it where they are asked for.
#![tactic(auto)]

ghost use Rattle.std.specs.Prelude.{◌≡◌, ℕ, ◌<◌, ◌≤◌, length, Ok, Err, MatchResult};
ghost use Rattle.incoming_line.specs.Passing.{PassAnswer};
ghost use Rattle.incoming_line.specs.declared.passing.PassError.TheVariants.{Unwritten};

use command_line::input::fill;
use command_line::words::words;
use incoming_line::arguments::Arguments;
use incoming_line::line::Line;
use incoming_line::passing::PassError;
use receiver::feeding::MOST_OCTETS;
use std::io;
use std::io::{BufWriter, Write};
use std::process::ExitCode;

const USAGE: &str = "usage: receive [--payloads] [--events] < line > cells
  --payloads   only the 48 payload octets of each cell are written, without the 4 of its header
  --events     each event is listed on standard error";

fn main(rt: HostRuntime) -> anyhow::Result<ExitCode> {
    run(&rt)
}

fn run(rt: &HostRuntime) -> anyhow::Result<ExitCode> {
    let words = words(rt, USAGE)?;
    let arguments = match Arguments::parse(&words) {
        Ok(arguments) => arguments,
        Err(fault) => return Ok(fault.refuse(rt, USAGE, &words)?),
    };
    let mut line = Line::new();
    receive(rt, &mut line, arguments)?;
    rt.eprintln(line.summary())?;
    Ok(ExitCode::SUCCESS)
}

// Feeds standard input to the line until it ends, and writes out what each feed brings.
fn receive(rt: &HostRuntime, line: &mut Line, arguments: Arguments) -> io::Result<()> {
    let mut out = BufWriter::new(rt.alloc(), rt.stdout())?;
    let mut listing = BufWriter::new(rt.alloc(), rt.stderr())?;
    let mut octets = [0u8; MOST_OCTETS];
    // Nothing says that an input ends, so a count bounds the loop.
    for _ in 0..u64::MAX {
        let came = fill(&mut rt.stdin(), &mut octets)?;
        if came == 0 {
            break;
        }
        pass_on(line, &octets[..came], arguments, &mut out, &mut listing)?;
        if came < MOST_OCTETS {
            break;
        }
    }
    out.flush()
}

// One feed, and what it brings written out. It is not refused; where a write fails, the octets were fed all the same.
fn pass_on<W: Write, L: Write>(
    line: &mut Line,
    octets: &[u8],
    arguments: Arguments,
    out: &mut W,
    listing: &mut L,
) -> io::Result<()>
    requires some { 0 < length octets.now }
    requires few { length octets.now ≤ 4096 }
    ensures { MatchResult result (λ x. PassAnswer arguments octets.now line.old (W.contents out.old) (L.contents listing.old) (Ok x) line.new (W.contents out.new) (L.contents listing.new)) (λ e. PassAnswer {X = ℕ} arguments octets.now line.old (W.contents out.old) (L.contents listing.old) (Err (Unwritten e)) line.new (W.contents out.new) (L.contents listing.new)) }
{
    match line.pass_on(octets, arguments, out, listing) {
        Ok(()) => Ok(()),
        Err(PassError::Unwritten(cause)) => Err(cause),
        Err(PassError::Refused(_)) => unreachable!(),
    }
}
