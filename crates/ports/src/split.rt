//! Two sinks, told apart by the connection.
ghost use Rattle.std.specs.Prelude.{◌≡◌, nat_lt};
ghost use Rattle.cell.specs.Header.{connection_of};
ghost use Rattle.ports.specs.Sink.{PutAnswer};
ghost use Rattle.ports.specs.Split.{split_state, split_bounded, SplitPut};

use crate::sink::Sink;
use cell::header::Header;
use cell::refusal::Refusal;

/// Two sinks and a number: lower connections go left, the others right.
#[derive(Drop)]
pub struct Split<L, R> {
    pub left: L,
    pub right: R,
    pub boundary: u32,
}

impl<L: Sink, R: Sink> Sink for Split<L, R> {
    ghost state = { λ s. split_state s.boundary (L.Sink.state s.left) (R.Sink.state s.right) };

    ghost bounded = { λ s. split_bounded s.boundary (L.Sink.state s.left) (R.Sink.state s.right) (L.Sink.bounded s.left) (R.Sink.bounded s.right) };

    fn put(&mut self, header: Header, payload: &[u8]) -> Result<(), Refusal>
        ensures answer { PutAnswer (split_state self.old.boundary (L.Sink.state self.old.left) (R.Sink.state self.old.right)) header.0 payload.now result (split_state self.new.boundary (L.Sink.state self.new.left) (R.Sink.state self.new.right)) }
        ensures parts { SplitPut L.Sink.state R.Sink.state (nat_lt (connection_of header.0) self.old.boundary) self.old.left self.old.right header.0 payload.now result self.new.left self.new.right }
        ensures boundary { self.new.boundary ≡ self.old.boundary }
    {
        if header.connection() < self.boundary {
            self.left.put(header, payload)
        } else {
            self.right.put(header, payload)
        }
    }
}
