//! What is lent is a source or a sink as well: a `&mut` to one has its meaning.
use crate::sink::Sink;
use crate::source::{CountedSource, Source};
use cell::header::Header;
use cell::refusal::Refusal;

impl<S: Source> Source for &mut S {
    ghost waiting = { λ s. S.Source.waiting s.now };

    ghost users = { λ s. S.Source.users s.now };

    fn look(&self, place: &mut [u8]) -> Result<(), Refusal> {
        (**self).look(place)
    }

    fn take(&mut self, place: &mut [u8]) -> Result<(), Refusal> {
        (**self).take(place)
    }
}

impl<S: CountedSource> CountedSource for &mut S {
    fn count(&self) -> u32 {
        (**self).count()
    }
}

impl<K: Sink> Sink for &mut K {
    ghost state = { λ s. K.Sink.state s.now };

    ghost bounded = { λ s. K.Sink.bounded s.now };

    fn put(&mut self, header: Header, payload: &[u8]) -> Result<(), Refusal> {
        (**self).put(header, payload)
    }
}
