//! The end of a line: \n or \r\n, and none at the end of the input.
ghost use Rattle.captured_headers.specs.LineEnd.{BodyOf};

/// A line without its line end.
#[tactic(auto, using(crate::proofs::Ends::without_end))]
pub fn body(line: &[u8]) -> &[u8]
    ensures { BodyOf line.now result.now }
{
    match line.strip_suffix(b"\n") {
        Some(rest) => rest.strip_suffix(b"\r").unwrap_or(rest),
        None => line,
    }
}
