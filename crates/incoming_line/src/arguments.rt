//! The arguments: what they ask for, or why they are refused.
ghost use Rattle.std.specs.Prelude.{◌≡◌, ◌+◌, ◌^◌, ◌<◌, map, length, string_bytes, Some};
ghost use Rattle.incoming_line.specs.Arguments.{gave, taken, read_from, parsed, why_text};

use crate::name::Name;
use command_line::fault::Fault;
use std::fmt;

/// What the arguments ask for.
#[derive(Clone, Copy, Debug, Default, PartialEq, Eq)]
pub struct Arguments {
    /// only the payloads of cells are written
    pub payloads: bool,
    /// events are listed
    pub events: bool,
}

/// Why the arguments are refused: what is wrong with the one that a word names.
#[derive(Clone, Copy, Debug, PartialEq, Eq)]
pub enum Why {
    /// no argument has this name
    Unknown,
    /// it stands before too
    Repeated,
}

impl Arguments {
    /// What the words ask for, one to an argument, in any order.
    pub fn parse(words: &[String]) -> Result<Arguments, Fault<Why>>
        ensures { result ≡ parsed (map string_bytes words.now) }
    {
        let mut given = Arguments::default();
        for (at, word) in words.iter().enumerate() {
            given = given.take(word.as_str()).map_err(|why| Fault { at, why })?;
        }
        Ok(given)
    }

    // Takes an argument, by the word that names it.
    fn take(self, word: &str) -> Result<Arguments, Why>
        ensures { result ≡ taken self word.now }
    {
        self.give(word.parse()?)
    }

    // Gives an argument that was not given before.
    fn give(self, name: Name) -> Result<Arguments, Why>
        ensures { result ≡ gave self name }
    {
        match name {
            Name::Payloads if self.payloads => Err(Why::Repeated),
            Name::Payloads => Ok(Arguments {
                payloads: true,
                ..self
            }),
            Name::Events if self.events => Err(Why::Repeated),
            Name::Events => Ok(Arguments {
                events: true,
                ..self
            }),
        }
    }
}

impl fmt::Display for Why {
    ghost output = { λ why. Some (why_text why) };

    fn fmt<W: fmt::Write>(&self, f: &mut fmt::Formatter<W>) -> fmt::Result {
        f.write_str(match *self {
            Why::Unknown => "no such argument",
            Why::Repeated => "an argument is given twice",
        })
    }
}
