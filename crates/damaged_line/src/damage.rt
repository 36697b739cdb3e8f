//! Damage: which bits of a cell on the line are turned.
ghost use Rattle.std.specs.Prelude.{◌≡◌, ◌<◌, Some};
ghost use Rattle.text.specs.Words.{is_blank};
ghost use Rattle.std.specs.List.{slice_split};
ghost use Rattle.damaged_line.specs.Damage.{none, octet_at, mask_at, turns, marked, marked_if, marked_by, marked_all, damage_of, turned, damage_text};

use cell::sizes;
use cell::sizes::LINE_OCTETS;
use std::fmt;
use text::{number, words};

const LINE_BITS: u32 = sizes::LINE_BITS as u32;

/// A mark at each bit of a cell that is turned. Bit 0 is the first sent: the top bit of octet 0.
#[derive(Clone, Copy)]
pub struct Damage {
    marks: [u8; LINE_OCTETS],
}

impl Damage {
    // No bit is turned.
    pub(crate) fn none() -> Damage
        ensures { result ≡ none }
    {
        Damage {
            marks: [0; LINE_OCTETS],
        }
    }

    // The bits that the words of a text name, each once; none where a word names anything else.
    pub(crate) fn read(text: &[u8]) -> Option<Damage>
        ensures { result ≡ damage_of text.now }
    {
        Damage::none().read_more(text)
    }

    // The same, with these bits besides.
    #[tactic(auto, using(crate::proofs::Words::by_none, crate::proofs::Words::by_last, crate::proofs::Words::by_more))]
    fn read_more(self, text: &[u8]) -> Option<Damage>
        ensures { result ≡ marked_all self (slice_split is_blank text.now) }
    {
        let damage = self.mark_by(words::first(text))?;
        if words::is_one(text) {
            return Some(damage);
        }
        damage.read_more(words::others(text))
    }

    // One bit more, which a word names.
    fn mark_by(self, word: &[u8]) -> Option<Damage>
        ensures { result ≡ marked_by self word.now }
    {
        self.mark(number::read(word)?)
    }

    // One bit more. None where a cell has no such bit, or where it is marked.
    fn mark(self, bit: u32) -> Option<Damage>
        ensures { result ≡ marked_if self bit }
    {
        if bit >= LINE_BITS || self.turns(bit) {
            return None;
        }
        Some(self.with(bit))
    }

    // A bit is turned.
    fn turns(&self, bit: u32) -> bool
        requires { bit < 424 }
        ensures { result ≡ turns self.now bit }
    {
        self.marks[octet_at(bit)] & mask_at(bit) != 0
    }

    fn with(self, bit: u32) -> Damage
        requires { bit < 424 }
        ensures { result ≡ marked self bit }
    {
        let mut damage = self;
        damage.marks[octet_at(bit)] |= mask_at(bit);
        damage
    }

    // The octets of a cell on the line, with the marked bits turned, and no others.
    pub(crate) fn turned(&self, line: &[u8; LINE_OCTETS]) -> [u8; LINE_OCTETS]
        ensures { result ≡ turned self.now line.now }
    {
        let mut damaged = *line;
        for i in 0..LINE_OCTETS {
            damaged[i] ^= self.marks[i];
        }
        damaged
    }
}

// The octet in which a bit stands.
fn octet_at(bit: u32) -> usize
    ensures { result ≡ octet_at bit }
{
    (bit / 8) as usize
}

// Its place there, from the top.
fn mask_at(bit: u32) -> u8
    ensures { result ≡ mask_at bit }
{
    0x80 >> (bit % 8)
}

// The numbers of the marked bits, each behind a blank.
impl fmt::Display for Damage {
    ghost output = { λ damage. Some (damage_text damage) };

    fn fmt<W: fmt::Write>(&self, f: &mut fmt::Formatter<W>) -> fmt::Result {
        for bit in 0..LINE_BITS {
            if self.turns(bit) {
                write!(f, " {bit}")?;
            }
        }
        Ok(())
    }
}
