//! The names of the arguments.
ghost use Rattle.std.specs.Prelude.{◌≡◌};
ghost use Rattle.outgoing_line.specs.Name.{named};

use crate::arguments::Why;
use std::str::FromStr;

#[derive(Clone, Copy, Debug, PartialEq, Eq)]
pub enum Name {
    Phase,
    Lead,
    Vpi,
    Vci,
    Header,
    F3,
}

// The argument that a word names.
impl FromStr for Name {
    type Err = Why;

    ghost from_str_gives = { λ word r. r ≡ named word };

    fn from_str(word: &str) -> Result<Name, Why> {
        match word {
            "--phase" => Ok(Name::Phase),
            "--lead" => Ok(Name::Lead),
            "--vpi" => Ok(Name::Vpi),
            "--vci" => Ok(Name::Vci),
            "--header" => Ok(Name::Header),
            "--f3" => Ok(Name::F3),
            _ => Err(Why::Unknown),
        }
    }
}
