//! The numbers that words spell.
ghost use Rattle.receiver_vectors.specs.Number.{Number};

use std::str;

/// The number below 2^32 that a word spells in decimal digits, behind a plus or not; none where it spells none. The crate text reads
/// other numbers: none behind a plus, and those behind 0x.
pub fn number(word: &[u8]) -> Option<u32>
    ensures { Number word.now result }
{
    let word = str::from_utf8(word).ok()?;
    word.parse().ok()
}
