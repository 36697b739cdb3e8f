//! Every refusal of sources, sinks and rings, and a drain that one ends.
use crate::checks::refused;
use crate::one_cell::OneCell;
use blocks::block_sink::BlockSink;
use blocks::block_source::BlockSource;
use cell::header::Header;
use cell::refusal::Refusal;
use ports::closed::Closed;
use ports::drain::drain;
use ports::sink::Sink;
use ports::source::{CountedSource, Source};
use ports::user_cell::UserCell;
use ring::ring::Ring;
use std::test::Fail;

const USER: Header = Header(0x0000_0640);

// Wrong lengths first, then an empty ring; neither writes to the place.
#[test]
fn an_empty_ring_refuses(rt: HostRuntime) {
    let mut slots = [UserCell::blank(); 1];
    let mut ring = Ring::new(&mut slots);
    let mut place = [7; 53];
    assert!(rt; refused(ring.look(&mut place[0..51])) == Some(4));
    assert!(rt; refused(ring.take(&mut place[0..53])) == Some(4));
    assert!(rt; refused(ring.look(&mut place[0..52])) == Some(8));
    assert!(rt; refused(ring.take(&mut place[0..52])) == Some(8));
    assert!(rt; place[0] == 7 && place[51] == 7);
}

// Wrong lengths first, then reserved headers, then no space.
#[test]
fn a_full_ring_refuses(rt: HostRuntime) -> Result<(), Fail> {
    let mut slots = [UserCell::blank(); 1];
    let mut ring = Ring::new(&mut slots);
    assert!(rt; refused(ring.put(Header::IDLE, &[1; 47])) == Some(4));
    assert!(rt; refused(ring.put(Header::F3, &[1; 48])) == Some(5));
    ring.put(USER, &[1; 48])?;
    assert!(rt; refused(ring.put(Header::IDLE, &[1; 48])) == Some(5));
    assert!(rt; refused(ring.put(USER, &[1; 48])) == Some(7));
    let mut place = [7; 52];
    ring.look(&mut place)?;
    assert!(rt; place[2] == 6 && place[3] == 0x40 && place[51] == 1);
    Ok(())
}

#[test]
fn a_block_sink_refuses(rt: HostRuntime) -> Result<(), Fail> {
    let mut block = [0; 100];
    let mut sink = BlockSink::new(USER, &mut block);
    assert!(rt; refused(sink.put(USER, &[1; 49])) == Some(4));
    assert!(rt; refused(sink.put(Header::IDLE, &[1; 48])) == Some(5));
    assert!(rt; refused(sink.put(Header(0x0000_0642), &[1; 48])) == Some(6));
    sink.put(USER, &[1; 48])?;
    sink.put(USER, &[2; 48])?;
    assert!(rt; refused(sink.put(USER, &[3; 48])) == Some(7));
    assert!(rt; sink.payloads() == 2);
    assert!(rt;
        block[0] == 1 && block[47] == 1 && block[48] == 2 && block[95] == 2 && block[96] == 0
    );
    let mut short = [0; 47];
    assert!(rt; refused(BlockSink::new(USER, &mut short).put(USER, &[1; 48])) == Some(7));
    Ok(())
}

// Under a reserved header a block sink accepts nothing, and a block source has nothing.
#[test]
fn blocks_under_a_reserved_header(rt: HostRuntime) {
    let mut block = [0; 96];
    let mut sink = BlockSink::new(Header::F3, &mut block);
    assert!(rt; refused(sink.put(Header::F3, &[1; 48])) == Some(5));
    assert!(rt; refused(sink.put(USER, &[1; 48])) == Some(6));
    let mut place = [0; 52];
    assert!(rt; refused(BlockSource::new(Header::F3, &block).look(&mut place)) == Some(8));
    assert!(rt; refused(BlockSource::new(USER, &block[0..0]).take(&mut place)) == Some(8));
    assert!(rt; refused(BlockSource::new(USER, &block).take(&mut place)) == None);
}

// The cell of a refused put stays in the source.
#[test]
fn a_refused_put_ends_draining(rt: HostRuntime) -> Result<(), Fail> {
    let mut from = OneCell {
        slot: Some(UserCell::new(USER, &[5; 48])?),
    };
    let drained = drain(&mut from, &mut Closed);
    assert!(rt; drained.moved == 0);
    assert!(rt; drained.refusal == Some(Refusal::NotServed));
    assert!(rt; from.count() == 1);
    let mut slots = [UserCell::blank(); 2];
    let mut ring = Ring::new(&mut slots);
    let drained = drain(&mut from, &mut ring);
    assert!(rt; drained.moved == 1);
    assert!(rt; drained.refusal == None);
    assert!(rt; from.count() == 0);
    assert!(rt; ring.len() == 1);
    Ok(())
}
