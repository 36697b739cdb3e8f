//! What the tests check.
ghost use Rattle.std.specs.Prelude.{◌≡◌, IfOk, IsTrue};
ghost use Rattle.ports_tests.specs.Refused.{refused_by};

use cell::refusal::Refusal;
use std::test::Fail;

// A failure, unless what is checked holds. For helpers: they are not given the runtime that assert! takes.
pub(crate) fn check(holds: bool) -> Result<(), Fail>
    ensures { IfOk result (λ _. IsTrue holds) }
{
    if holds {
        Ok(())
    } else {
        Err(Fail::new("a check of a helper failed"))
    }
}

// The number of a refusal, if it is one.
pub(crate) fn refused<T: Drop>(answer: Result<T, Refusal>) -> Option<u8>
    ensures { result ≡ refused_by answer }
{
    answer.err().map(Refusal::number)
}
