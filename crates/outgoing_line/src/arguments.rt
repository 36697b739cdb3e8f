//! The arguments: what they ask for, or why they are refused.
ghost use Rattle.std.specs.Prelude.{◌≡◌, ◌+◌, ◌-◌, ◌^◌, ◌<◌, Some, map, length, string_bytes};
ghost use Rattle.outgoing_line.specs.Arguments.{spelled, in_range, once_more, field_given, header_given, gave, taken, alone, header_of, arguments_of, read_from, parsed, why_text};

use crate::name::Name;
use cell::header::Header;
use command_line::fault::Fault;
use scrambler::generator::check_phase;
use std::fmt;
use text::number;

/// What the arguments ask for.
#[derive(Clone, Copy, PartialEq, Eq)]
pub struct Arguments {
    /// the phase of the first cell
    pub phase: u32,
    /// how many cells go out before the block
    pub lead: u32,
    /// the header of the block's cells
    pub header: Header,
    /// the number of the word that names the file of the F3 payload
    pub f3: Option<usize>,
}

/// Why the arguments are refused: what is wrong with the one that a word names.
#[derive(Clone, Copy, Debug, PartialEq, Eq)]
pub enum Why {
    /// no argument has this name
    Unknown,
    /// its value is missing
    NoValue,
    /// its value is no number below 2^32
    NoNumber,
    /// its value is too small or too large
    OutOfRange,
    /// its value heads idle or F3 cells
    Reserved,
    /// it stands before too
    Repeated,
    /// the header is given as a whole and by its fields
    TwoHeaders,
}

impl Arguments {
    /// What the words ask for, two to an argument: its name and its value.
    #[tactic(auto, using(crate::proofs::Pairs::asked))]
    pub fn parse(words: &[String]) -> Result<Arguments, Fault<Why>>
        ensures { result ≡ parsed (map string_bytes words.now) }
    {
        let given = read(Given::default(), 0, words)?;
        Ok(given.arguments())
    }
}

// Reads the words from number `at` on, where those before them gave what is given. By patterns over the rest: two words at a time, and a
// name alone where its value is missing.
fn read(given: Given, at: usize, words: &[String]) -> Result<Given, Fault<Why>>
    requires { at + length words.now < 2 ^ 64 }
    ensures { result ≡ read_from given at (map string_bytes words.now) }
{
    match words {
        [] => Ok(given),
        [name] => Err(Fault {
            at,
            why: lacking(name.as_str()),
        }),
        [name, value, rest @ ..] => {
            let given = given
                .take(name.as_str(), at + 1, value.as_bytes())
                .map_err(|why| Fault { at, why })?;
            read(given, at + 2, rest)
        }
    }
}

// Why a name cannot stand without a value.
fn lacking(name: &str) -> Why
    ensures { result ≡ alone name.now }
{
    name.parse::<Name>().err().unwrap_or(Why::NoValue)
}

// The arguments that stand in the words read so far.
#[derive(Clone, Copy, Default)]
struct Given {
    phase: Option<u32>,
    lead: Option<u32>,
    vpi: Option<u8>,
    vci: Option<u16>,
    header: Option<u32>,
    f3: Option<usize>,
}

impl Given {
    // Takes an argument, by its name and its value, which is word number `at`.
    fn take(self, name: &str, at: usize, value: &[u8]) -> Result<Given, Why>
        ensures { result ≡ taken self name.now at value.now }
    {
        self.give(name.parse()?, at, value)
    }

    // Gives an argument its value: a number, or the word that names a file.
    fn give(self, name: Name, at: usize, value: &[u8]) -> Result<Given, Why>
        ensures { result ≡ gave self name at value.now }
    {
        match name {
            Name::Phase => Ok(Given {
                phase: once(self.phase, running(spelled(value)?)?)?,
                ..self
            }),
            Name::Lead => Ok(Given {
                lead: once(self.lead, spelled(value)?)?,
                ..self
            }),
            Name::Vpi => Ok(Given {
                vpi: self.field(
                    self.vpi,
                    u8::try_from(spelled(value)?).map_err(|_| Why::OutOfRange)?,
                )?,
                ..self
            }),
            Name::Vci => Ok(Given {
                vci: self.field(
                    self.vci,
                    u16::try_from(spelled(value)?).map_err(|_| Why::OutOfRange)?,
                )?,
                ..self
            }),
            Name::Header => Ok(Given {
                header: self.whole(spelled(value)?)?,
                ..self
            }),
            Name::F3 => Ok(Given {
                f3: once(self.f3, at)?,
                ..self
            }),
        }
    }

    // A field of the header, which is not given as a whole.
    fn field<T: Copy>(self, before: Option<T>, value: T) -> Result<Option<T>, Why>
        ensures { result ≡ field_given self before value }
    {
        match self.header {
            Some(_) => Err(Why::TwoHeaders),
            None => once(before, value),
        }
    }

    // The whole header, of which no field is given.
    fn whole(self, value: u32) -> Result<Option<u32>, Why>
        ensures { result ≡ header_given self value }
    {
        if Header(value).is_reserved() {
            return Err(Why::Reserved);
        }
        match (self.vpi, self.vci) {
            (None, None) => once(self.header, value),
            _ => Err(Why::TwoHeaders),
        }
    }

    // What is asked for, with the usual value of each argument that is not given.
    fn arguments(self) -> Arguments
        ensures { result ≡ arguments_of self }
    {
        Arguments {
            phase: self.phase.unwrap_or(1),
            lead: self.lead.unwrap_or(32),
            header: Header(self.header_word()),
            f3: self.f3,
        }
    }

    // The header: by its fields it has GFC, PT and CLP of 0.
    fn header_word(self) -> u32
        ensures { result ≡ header_of self }
    {
        match self.header {
            Some(header) => header,
            None => u32::from(self.vpi.unwrap_or(0)) * 0x10_0000
                + u32::from(self.vci.unwrap_or(100)) * 0x10,
        }
    }
}

// The number that a value spells.
fn spelled(value: &[u8]) -> Result<u32, Why>
    ensures { result ≡ spelled value.now }
{
    number::read(value).ok_or(Why::NoNumber)
}

// A phase that cells are coded at.
fn running(phase: u32) -> Result<u32, Why>
    ensures { result ≡ in_range phase 1 (2 ^ 31 - 1) }
{
    check_phase(phase).map_err(|_| Why::OutOfRange)?;
    Ok(phase)
}

// The value of an argument that did not stand before.
fn once<T: Copy>(before: Option<T>, value: T) -> Result<Option<T>, Why>
    ensures { result ≡ once_more before value }
{
    match before {
        Some(_) => Err(Why::Repeated),
        None => Ok(Some(value)),
    }
}

impl fmt::Display for Why {
    ghost output = { λ why. Some (why_text why) };

    fn fmt<W: fmt::Write>(&self, f: &mut fmt::Formatter<W>) -> fmt::Result {
        f.write_str(match *self {
            Why::Unknown => "no such argument",
            Why::NoValue => "an argument lacks its value",
            Why::NoNumber => "the value is no number from 0 to 4294967295, decimal or behind 0x",
            Why::OutOfRange => "the value is out of range",
            Why::Reserved => "the header is reserved for idle or F3 cells",
            Why::Repeated => "an argument is given twice",
            Why::TwoHeaders => "the header is given as a whole and by its fields",
        })
    }
}
