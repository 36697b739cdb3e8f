//! What draining answers.
use cell::refusal::Refusal;

/// How many cells were moved, and the refusal of the put that ended it, if one did.
#[derive(Clone, Copy, Debug, PartialEq, Eq, Hash)]
pub struct Drained {
    pub moved: u32,
    pub refusal: Option<Refusal>,
}
