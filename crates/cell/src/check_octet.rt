//! The check octet of a header.
ghost use Rattle.std.specs.Prelude.{◌≡◌, ◌*◌, ◌^◌};
ghost use Rattle.cell.specs.CheckOctet.{check_octet, LeavesCheckOctet};
ghost use Rattle.cell.specs.Linear.{Linear};
ghost use Rattle.cell.specs.Polynomial.{remainder};

use crate::header::Header;
use crate::sizes::HEADER_OCTETS;

// Added to the remainder, so that a run of zeros does not pass for headers.
const COSET: u8 = 0x55;

impl Header {
    /// The check octet (HEC): the remainder of x^8 times the header by x^8 + x^2 + x + 1, with 0x55 added. It is found an octet at a time.
    #[tactic(auto, using(crate::proofs::Division::octets_leave, crate::proofs::Division::leaves_check_octet, crate::proofs::Division::lin_remainder))]
    pub fn check_octet(self) -> u8
        ensures value { result ≡ check_octet self.0 }
        ensures division { LeavesCheckOctet self.0 result }
        ensures linear { Linear (remainder 32) }
    {
        let [a, b, c, d]: [u8; HEADER_OCTETS] = self.into();
        times_x8(times_x8(times_x8(times_x8(a) ^ b) ^ c) ^ d) ^ COSET
    }
}

// The remainder of x^8 times an octet. x^8 leaves x^2 + x + 1, so the octet leaves itself moved up by 2, by 1 and by 0;
// what that carries past x^7 is a multiple of x^8 again, and leaves the same of its two bits.
fn times_x8(octet: u8) -> u8
    ensures { result ≡ remainder 8 (octet * 2 ^ 8) }
{
    let low = u16::from(octet);
    let sum = (low << 2) ^ (low << 1) ^ low;
    let carry = sum >> 8;
    ((sum ^ (carry << 2) ^ (carry << 1) ^ carry) & 0xff) as u8
}
