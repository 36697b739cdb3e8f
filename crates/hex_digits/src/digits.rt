//! Lower-case hexadecimal digits: two to an octet, eight to a word. The kit's crate hex would take capitals too.
ghost use Rattle.std.specs.Prelude.{◌≡◌, ℕ, List, Some, IfOk, MatchOption};
ghost use Rattle.hex_digits.specs.Digits.{digit_of, octet_of, word_of, SpellsOctets, spelled};

use std::alloc::{AllocError, Global};
use std::fmt;

/// The word that eight digits spell; none where the text is anything else.
pub fn word(text: &[u8]) -> Option<u32>
    ensures { result ≡ word_of text.now }
{
    let &[a, b, c, d, e, f, g, h] = text else {
        return None;
    };
    let octets = [octet(a, b)?, octet(c, d)?, octet(e, f)?, octet(g, h)?];
    Some(u32::from_be_bytes(octets))
}

/// The octets that a text spells, two digits to each; none where it is anything else.
pub fn octets(heap: Global, text: &[u8]) -> Result<Option<Vec<u8>>, AllocError>
    ensures { IfOk result (λ o. MatchOption o ((xs : List ℕ) → SpellsOctets text.now xs → ⊥) (λ v. SpellsOctets text.now v.items)) }
{
    let (pairs, []) = text.as_chunks::<2>() else {
        return Ok(None);
    };
    let mut octets = Vec::new(heap);
    for &[high, low] in pairs {
        let Some(octet) = octet(high, low) else {
            return Ok(None);
        };
        octets.push(octet)?;
    }
    Ok(Some(octets))
}

// The octet that two digits spell.
fn octet(high: u8, low: u8) -> Option<u8>
    ensures { result ≡ octet_of high low }
{
    Some(digit(high)? * 16 + digit(low)?)
}

// The value of a digit.
fn digit(letter: u8) -> Option<u8>
    ensures { result ≡ digit_of letter }
{
    match letter {
        b'0'..=b'9' => Some(letter - b'0'),
        b'a'..=b'f' => Some(letter - b'a' + 10),
        _ => None,
    }
}

/// Octets to be written, two digits to each.
#[derive(Clone, Copy)]
pub struct Hex<'a>(pub &'a [u8]);

impl fmt::Display for Hex<'_> {
    ghost output = { λ hex. Some (spelled hex.0.now) };

    fn fmt<W: fmt::Write>(&self, f: &mut fmt::Formatter<W>) -> fmt::Result {
        for &octet in self.0 {
            write!(f, "{octet:02x}")?;
        }
        Ok(())
    }
}
