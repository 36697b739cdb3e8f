//! Rings of events in 0, 1, 1,024 and 1,025 places.
use crate::checks::{check, refused};
use ring::ring::Ring;
use std::test::Fail;

// An event as plain numbers.
#[derive(Clone, Copy)]
struct Event {
    bit: u64,
    layer: u8,
    cause: u8,
}

fn at_bit(bit: u64) -> Event {
    Event {
        bit,
        layer: 2,
        cause: 1,
    }
}

// Fills every place, finds the ring full, takes all out in order, finds it empty; three times, each time from one place further on.
fn fills(slots: &mut [Event], places: u64) -> Result<(), Fail> {
    let mut ring = Ring::new(slots);
    check(ring.places() as u64 == places)?;
    // the whole again, and no index
    for _ in 0..3u8 {
        for bit in 0..places {
            ring.push(at_bit(bit))?;
        }
        check(refused(ring.push(at_bit(0))) == Some(7))?;
        check(ring.len() as u64 == places)?;
        for bit in 0..places {
            check(ring.front()?.bit == bit)?;
            check(ring.pop()?.bit == bit)?;
        }
        check(refused(ring.front()) == Some(8))?;
        check(refused(ring.pop()) == Some(8))?;
        check(ring.len() == 0)?;
        if places > 0 {
            ring.push(at_bit(9))?;
            check(ring.pop()?.bit == 9)?;
        }
    }
    Ok(())
}

#[test]
fn rings_of_each_size() -> Result<(), Fail> {
    fills(&mut [at_bit(0); 0], 0)?;
    fills(&mut [at_bit(0); 1], 1)?;
    fills(&mut [at_bit(0); 1024], 1024)?;
    fills(&mut [at_bit(0); 1025], 1024)
}
