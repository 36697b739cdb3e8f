//! The calls, one to a line: `end EVENTS SINK`, `feed OCTETS` and `reset`.
ghost use Rattle.std.specs.Prelude.{IfOk};
ghost use Rattle.receiver_vectors.specs.Calls.{RingText, SplitText, SinkText, EndText, FeedText, Reads};

use crate::number::number;
use hex_digits::digits;
use std::alloc::{AllocError, Global};
use text::words;

/// What an end hands its cells to.
#[derive(Clone, Copy)]
pub enum SinkKind {
    /// a ring of so many places
    Ring(u32),
    /// a sink that serves nothing
    Closed,
    /// connections below the boundary go to a ring of so many places, all others to a sink that serves nothing
    Split { boundary: u32, places: u32 },
}

/// What a line asks for.
#[derive(Drop)]
pub enum Call {
    /// make an end with so many places for events, and this sink
    End { event_places: u32, sink: SinkKind },
    /// feed these octets to it
    Feed(Vec<u8>),
    /// reset it
    Reset,
}

impl Call {
    /// The call that a line spells, if it spells one.
    pub fn read(heap: Global, line: &[u8]) -> Result<Option<Call>, AllocError>
        ensures { IfOk result (λ c. Reads line.now c) }
    {
        match words::first(line) {
            b"end" => Ok(end_call(words::others(line))),
            b"feed" => feed_call(heap, words::others(line)),
            _ if line == b"reset".as_slice() => Ok(Some(Call::Reset)),
            _ => Ok(None),
        }
    }
}

// How many events, and the sink.
fn end_call(text: &[u8]) -> Option<Call>
    ensures { EndText text.now result }
{
    Some(Call::End {
        event_places: number(words::first(text))?,
        sink: sink_kind(words::others(text))?,
    })
}

// Octets.
fn feed_call(heap: Global, text: &[u8]) -> Result<Option<Call>, AllocError>
    ensures { IfOk result (λ c. FeedText text.now c) }
{
    Ok(digits::octets(heap, text)?.map(Call::Feed))
}

// A word for the kind, and its numbers.
fn sink_kind(text: &[u8]) -> Option<SinkKind>
    ensures { SinkText text.now result }
{
    match words::first(text) {
        b"ring" => ring_kind(words::others(text)),
        b"split" => split_kind(words::others(text)),
        _ if text == b"closed".as_slice() => Some(SinkKind::Closed),
        _ => None,
    }
}

// How many places.
fn ring_kind(text: &[u8]) -> Option<SinkKind>
    ensures { RingText text.now result }
{
    number(text).map(SinkKind::Ring)
}

// A boundary, and how many places.
fn split_kind(text: &[u8]) -> Option<SinkKind>
    ensures { SplitText text.now result }
{
    let boundary = number(words::first(text))?;
    let places = number(words::others(text))?;
    Some(SinkKind::Split { boundary, places })
}
