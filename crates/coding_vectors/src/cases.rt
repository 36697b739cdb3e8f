//! The cases, one to a line: `cell PHASE OCTETS`, `find WORD` and `next PHASE`, each number of eight lower-case digits.
ghost use Rattle.std.specs.Prelude.{◌≡◌, ◌≢◌, ℕ, List, ◌++◌, IfOk, MatchOption};
ghost use Rattle.coding_vectors.specs.Cases.{CellCase, Reads};

use hex_digits::digits;
use std::alloc::{AllocError, Global};

/// What a line asks for.
#[derive(Drop)]
pub enum Case {
    /// code these octets as a cell at this phase
    Cell(u32, Vec<u8>),
    /// find the phase of this sample word
    Find(u32),
    /// move this phase on to the next cell
    Next(u32),
}

impl Case {
    /// The case that a line spells, if it spells one.
    pub fn read(heap: Global, line: &[u8]) -> Result<Option<Case>, AllocError>
        ensures { IfOk result (λ c. Reads line.now c) }
    {
        if let Some(text) = after(line, b"cell ") {
            return cell_case(heap, text);
        }
        if let Some(text) = after(line, b"find ") {
            return Ok(digits::word(text).map(Case::Find));
        }
        if let Some(text) = after(line, b"next ") {
            return Ok(digits::word(text).map(Case::Next));
        }
        Ok(None)
    }
}

// What follows the word with which a line begins, if it begins with it. With strip_prefix called in place the proof closes for the first
// of the three words only.
fn after<'a>(line: &'a [u8], word: &[u8]) -> Option<&'a [u8]>
    ensures { MatchOption result ((rest : List ℕ) → line.now ≢ word.now ++ rest) (λ rest. line.now ≡ word.now ++ rest.now) }
{
    line.strip_prefix(word)
}

// A phase, a blank and octets.
fn cell_case(heap: Global, text: &[u8]) -> Result<Option<Case>, AllocError>
    ensures { IfOk result (λ c. CellCase text.now c) }
{
    let Some((phase, [b' ', octets @ ..])) = text.split_first_chunk::<8>() else {
        return Ok(None);
    };
    let Some(phase) = digits::word(phase) else {
        return Ok(None);
    };
    let octets = digits::octets(heap, octets)?;
    Ok(octets.map(|octets| Case::Cell(phase, octets)))
}
