//! A block of 100,000 octets through block sources, a pair, a ring, a split and block sinks, and back.
use crate::checks::check;
use blocks::block_sink::BlockSink;
use blocks::block_source::BlockSource;
use cell::header::Header;
use ports::drain::drain;
use ports::pair::Pair;
use ports::sink::Sink;
use ports::source::CountedSource;
use ports::split::Split;
use ports::user_cell::UserCell;
use ring::ring::Ring;
use std::test::Fail;

// VPI 0, VCI 5, and VPI 1, VCI 5.
const LOW: Header = Header(0x0000_0050);

const HIGH: Header = Header(0x0010_0050);
// the first connection that goes right
const BOUNDARY: u32 = 6;

// Octets that do not repeat soon: a linear congruential sequence.
fn scatter(block: &mut [u8]) {
    let mut x: u32 = 1;
    for octet in block.iter_mut() {
        x = x.wrapping_mul(1_664_525).wrapping_add(1_013_904_223);
        *octet = (x >> 24) as u8;
    }
}

// Each octet received is the one that was sent in its place, or zero past the end of what was sent.
fn agrees(received: &[u8], sent: &[u8]) -> bool {
    received
        .iter()
        .enumerate()
        .all(|(k, octet)| *octet == sent.get(k).copied().unwrap_or(0))
}

// Everything from two sources through one ring into two sinks, a ring full at a time.
fn pass_on<P: CountedSource, Q: CountedSource, L: Sink, R: Sink>(
    first: &mut P,
    second: &mut Q,
    ring: &mut Ring<'_, UserCell>,
    left: &mut L,
    right: &mut R,
) -> u32 {
    let mut from = Pair { first, second };
    let mut to = Split {
        left,
        right,
        boundary: BOUNDARY,
    };
    let mut moved: u32 = 0;
    // as many times as the ring has to be filled; no index
    for _ in 0..3u8 {
        let _ = drain(&mut from, ring);
        moved = moved.saturating_add(drain(ring, &mut to).moved);
    }
    moved
}

fn carry(low: &[u8], high: &[u8], left: &mut [u8], right: &mut [u8]) -> u32 {
    let mut slots = [UserCell::blank(); 1024];
    let mut ring = Ring::new(&mut slots);
    let mut first = BlockSource::new(LOW, low);
    let mut second = BlockSource::new(HIGH, high);
    let mut left = BlockSink::new(LOW, left);
    let mut right = BlockSink::new(HIGH, right);
    pass_on(&mut first, &mut second, &mut ring, &mut left, &mut right)
}

// There: 65,520 octets are 1,365 payloads, and 34,480 are 718 and a part.
fn there(block: &[u8], left: &mut [u8], right: &mut [u8]) -> Result<(), Fail> {
    check(block.len() == 100_000)?;
    check(carry(&block[0..65_520], &block[65_520..100_000], left, right) == 2084)
}

// And back: the same octets again.
fn back(left: &[u8], right: &[u8], low: &mut [u8], high: &mut [u8]) -> Result<(), Fail> {
    check(carry(left, right, low, high) == 2084)?;
    check(agrees(low, left))?;
    check(agrees(high, right))
}

#[test]
fn there_and_back(rt: HostRuntime) -> Result<(), Fail> {
    let mut block = [0; 100_000];
    let mut left = [1; 65_520];
    let mut right = [1; 34_512];
    scatter(&mut block);
    there(&block, &mut left, &mut right)?;
    assert!(rt; agrees(&left, &block));
    assert!(rt; agrees(&right, &block[65_520..]));
    back(&left, &right, &mut [1; 65_520], &mut [1; 34_512])
}

fn counted(header: Header, block: &[u8]) -> u32 {
    BlockSource::new(header, block).count()
}

// At most 65,536 octets of a block are cut: 1,365 payloads and a part.
#[test]
fn long_blocks_are_cut_off(rt: HostRuntime) {
    assert!(rt; counted(LOW, &[7; 100_000]) == 1366);
    assert!(rt; counted(LOW, &[7; 65_536]) == 1366);
    assert!(rt; counted(LOW, &[7; 65_520]) == 1365);
    assert!(rt; counted(LOW, &[7; 1]) == 1);
    assert!(rt; counted(LOW, &[7; 0]) == 0);
    assert!(rt; counted(Header::F3, &[7; 100_000]) == 0);
}
