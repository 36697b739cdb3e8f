//! Sinks: where user cells go.
ghost use Rattle.std.specs.Prelude.{ℕ, ◌^◌, ◌<◌};
ghost use Rattle.ports.specs.Sink.{SinkState, PutAnswer};

use cell::header::Header;
use cell::refusal::Refusal;

/// Where user cells go. It means, for each connection, the cells held and the space left, and for each header whether it is served.
pub trait Sink {
    ghost state: { Self → SinkState };

    // a space is at most 2^31 - 1
    ghost bounded: { (s : Self) (k : ℕ) → (state s).space k < 2 ^ 31 };

    /// Takes a user cell up. Refuses a payload not of 48 octets, a reserved header, one that is not served, and a connection without space.
    /// Header and payload come apart, since what is no user cell is refused here.
    fn put(&mut self, header: Header, payload: &[u8]) -> Result<(), Refusal>
        ensures { PutAnswer (state self.old) header.0 payload.now result (state self.new) };
}
