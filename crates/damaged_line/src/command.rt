//! The commands, one to a line: `pass N`, `turn BITS`, `noise N`, `start PHASE`, `f3 OCTET` and `reset`.
ghost use Rattle.std.specs.Prelude.{◌≡◌, Some, codes};
ghost use Rattle.damaged_line.specs.Command.{skipped, octet_of, Spells, Reads, command_text};

use crate::damage::Damage;
use std::fmt;
use text::{number, words};

/// What a line asks for.
#[derive(Clone, Copy)]
pub enum Command {
    /// so many cells go over the line as they are sent
    Pass(u32),
    /// one cell goes over with these bits turned
    Turn(Damage),
    /// so many octets come that nobody sent
    Noise(u32),
    /// the sender starts again at this phase
    Start(u32),
    /// the F3 payload is 48 times this octet
    F3(u8),
    /// the receiving end is reset
    Reset,
}

/// A line that is neither empty nor a comment, and spells no command.
#[derive(Clone, Copy, Debug, PartialEq, Eq)]
pub struct Malformed;

impl Command {
    /// The command of a line without blanks at its ends; none where the line is empty or a comment.
    pub fn read(line: &[u8]) -> Result<Option<Command>, Malformed>
        ensures { Reads line.now result }
    {
        if is_skipped(line) {
            return Ok(None);
        }
        match Command::spelled(line) {
            Some(command) => Ok(Some(command)),
            None => Err(Malformed),
        }
    }

    // The command that a line spells, if it spells one.
    fn spelled(line: &[u8]) -> Option<Command>
        ensures { Spells line.now result }
    {
        match words::first(line) {
            b"pass" => number::read(words::others(line)).map(Command::Pass),
            b"turn" => Damage::read(words::others(line)).map(Command::Turn),
            b"noise" => number::read(words::others(line)).map(Command::Noise),
            b"start" => number::read(words::others(line)).map(Command::Start),
            b"f3" => octet(words::others(line)).map(Command::F3),
            _ if line == b"reset".as_slice() => Some(Command::Reset),
            _ => None,
        }
    }
}

// A line is empty or a comment.
fn is_skipped(line: &[u8]) -> bool
    ensures { result ≡ skipped line.now }
{
    matches!(line, [] | [b'#', ..])
}

// The number below 256 that a text spells.
fn octet(text: &[u8]) -> Option<u8>
    ensures { result ≡ octet_of text.now }
{
    u8::try_from(number::read(text)?).ok()
}

impl fmt::Display for Command {
    ghost output = { λ command. Some (command_text command) };

    #[tactic(auto, using(std::proofs::lemmas::Fmt::hex_byte))]
    fn fmt<W: fmt::Write>(&self, f: &mut fmt::Formatter<W>) -> fmt::Result {
        match *self {
            Command::Pass(cells) => write!(f, "pass {cells}"),
            Command::Turn(damage) => write!(f, "turn{damage}"),
            Command::Noise(octets) => write!(f, "noise {octets}"),
            Command::Start(phase) => write!(f, "start 0x{phase:08X}"),
            Command::F3(octet) => write!(f, "f3 0x{octet:02X}"),
            Command::Reset => f.write_str("reset"),
        }
    }
}

impl fmt::Display for Malformed {
    ghost output = { λ _. Some (codes "malformed") };

    fn fmt<W: fmt::Write>(&self, f: &mut fmt::Formatter<W>) -> fmt::Result {
        f.write_str("malformed")
    }
}
