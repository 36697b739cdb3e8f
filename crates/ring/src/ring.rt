//! The ring: lent places, used in a circle. Its calls stand in a module of their own, since their contracts name it.
ghost use Rattle.std.specs.Prelude.{◌-◌, ◌≤◌, length};

mod calls;
mod places;

/// A ring uses no more places than this.
pub const MOST_PLACES: usize = 1024;

/// A queue of elements in lent places. It holds as many as it has places, and uses freed places again. An index and a count tell where
/// they stand, since the library's own queues would allocate.
#[derive(Drop)]
pub struct Ring<'a, T> {
    slots: &'a mut [T],
    // where the oldest element stands
    first: usize,
    // how many elements are held
    count: usize,
    ghost small: { length slots.now ≤ 1024 },
    ghost inside: { first ≤ length slots.now - 1 },
    ghost fits: { count ≤ length slots.now },
}
