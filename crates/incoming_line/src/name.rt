//! The names of the arguments.
ghost use Rattle.std.specs.Prelude.{◌≡◌};
ghost use Rattle.incoming_line.specs.Name.{named};

use crate::arguments::Why;
use std::str::FromStr;

#[derive(Clone, Copy, Debug, PartialEq, Eq)]
pub enum Name {
    Payloads,
    Events,
}

// The argument that a word names.
impl FromStr for Name {
    type Err = Why;

    ghost from_str_gives = { λ word r. r ≡ named word };

    fn from_str(word: &str) -> Result<Name, Why> {
        match word {
            "--payloads" => Ok(Name::Payloads),
            "--events" => Ok(Name::Events),
            _ => Err(Why::Unknown),
        }
    }
}
