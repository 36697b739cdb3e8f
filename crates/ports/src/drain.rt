//! Draining a counted source into a sink.
ghost use Rattle.std.specs.Prelude.{◌≡◌};
ghost use Rattle.ports.specs.Drain.{Stepped, Drains};

use crate::drained::Drained;
use crate::sink::Sink;
use crate::source::{CountedSource, Source};
use cell::octets::cell_parts;
use cell::refusal::Refusal;
use cell::sizes::CELL_OCTETS;

/// Moves every cell of the source into the sink. A put that is refused ends it, and its cell stays in the source.
pub fn drain<S: CountedSource, K: Sink>(from: &mut S, to: &mut K) -> Drained
    ensures { Drains (S.Source.waiting from.old) (K.Sink.state to.old) result (S.Source.waiting from.new) (K.Sink.state to.new) }
{
    let mut moved: u32 = 0;
    let refusal = loop {
        match step(from, to) {
            Ok(true) => moved = moved.saturating_add(1),
            Ok(false) => break None,
            Err(refusal) => break Some(refusal),
        }
    };
    Drained { moved, refusal }
}

// Moves the first cell, and answers whether one waited. The cell is taken only once it was put: one that the sink refuses stays.
fn step<S: Source, K: Sink>(from: &mut S, to: &mut K) -> Result<bool, Refusal>
    ensures { Stepped (S.Source.waiting from.old) (K.Sink.state to.old) result (S.Source.waiting from.new) (K.Sink.state to.new) }
{
    let mut place = [0; CELL_OCTETS];
    if from.look(&mut place).is_err() {
        return Ok(false);
    }
    let (header, payload) = cell_parts(&place);
    to.put(header, &payload)?;
    // not refused: the cell was just looked at, in a place as long
    let _ = from.take(&mut place);
    Ok(true)
}
