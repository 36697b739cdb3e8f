//! A sink that serves nothing.
ghost use Rattle.ports.specs.Closed.{closed, closed_bounded};

use crate::checks::user_payload;
use crate::sink::Sink;
use cell::header::Header;
use cell::refusal::Refusal;

/// A sink that serves nothing.
#[derive(Clone, Copy, Debug, Default, PartialEq, Eq, Hash)]
pub struct Closed;

impl Sink for Closed {
    ghost state = { λ _. closed };

    ghost bounded = { λ _ k. closed_bounded k };

    fn put(&mut self, header: Header, payload: &[u8]) -> Result<(), Refusal> {
        user_payload(header, payload)?;
        Err(Refusal::NotServed)
    }
}
