//! What comes of a command.
ghost use Rattle.std.specs.Prelude.{◌≡◌, Some};
ghost use Rattle.damaged_line.specs.Outcome.{answered, outcome_text};

use crate::tally::Tally;
use cell::refusal::Refusal;
use std::fmt;

/// What came of a command.
#[derive(Clone, Copy)]
pub enum Outcome {
    /// what was sent, and what went up
    Went(Tally),
    /// an end did as it was told
    Accepted,
    /// an end refused it
    Refused(Refusal),
}

// What an end answered.
impl From<Result<(), Refusal>> for Outcome {
    ghost from_gives = { λ answer outcome. outcome ≡ answered answer };

    fn from(answer: Result<(), Refusal>) -> Outcome {
        match answer {
            Ok(()) => Outcome::Accepted,
            Err(refusal) => Outcome::Refused(refusal),
        }
    }
}

impl fmt::Display for Outcome {
    ghost output = { λ outcome. Some (outcome_text outcome) };

    fn fmt<W: fmt::Write>(&self, f: &mut fmt::Formatter<W>) -> fmt::Result {
        match self {
            Outcome::Went(counts) => write!(f, "{counts}"),
            Outcome::Accepted => f.write_str("accepted"),
            Outcome::Refused(refusal) => write!(f, "refused {}", refusal.number()),
        }
    }
}
