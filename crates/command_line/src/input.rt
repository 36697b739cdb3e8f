//! Reading from an input that may give fewer octets at a time than it is asked for.
ghost use Rattle.std.specs.Prelude.{◌≤◌, ◌<◌, length, take, IfOk};
ghost use Rattle.std.specs.Io.KnownBytes.{Consumes, IsAtEnd};

use std::io;
use std::io::Read;

/// Reads until the place is full or the input ends, and answers how many octets came.
pub fn fill<R: Read>(input: &mut R, place: &mut [u8]) -> io::Result<usize>
    ensures within { IfOk result (λ octets. octets ≤ length place.old) }
    ensures read { IfOk result (λ octets. Consumes (R.remaining input.old) (R.remaining input.new) (take octets place.new)) }
    ensures ended { IfOk result (λ octets. octets < length place.old → IsAtEnd (R.remaining input.new)) }
{
    let mut filled = 0;
    while filled < place.len() {
        let octets = input.read(&mut place[filled..])?;
        if octets == 0 {
            break;
        }
        filled += octets;
    }
    Ok(filled)
}
