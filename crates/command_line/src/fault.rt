//! What is wrong with the words of a command line.
ghost use Rattle.std.specs.Prelude.{◌≡◌, IfOk};
ghost use Rattle.std.specs.Process.{exit_status};

use crate::words::word;
use std::fmt::Display;
use std::io;
use std::io::Eprint;
use std::process::ExitCode;

/// Why the words are refused, and which of them is at fault, counted from 0.
#[derive(Clone, Copy, Debug, PartialEq, Eq, Drop)]
pub struct Fault<W> {
    pub at: usize,
    pub why: W,
}

impl<W: Display + Drop> Fault<W> {
    /// Says how the program is used, which word is refused, and why. It prints the word itself, since an error that `main` returns would
    /// hold only the first of a long one.
    pub fn refuse(self, rt: &impl Eprint, usage: &str, words: &[String]) -> io::Result<ExitCode>
        ensures { IfOk result (λ status. exit_status status ≡ 1) }
    {
        rt.eprintln(usage)?;
        let Fault { at, why } = self;
        let word = word(words, at);
        eprintln!(rt; "Error: {why}: {word}")?;
        Ok(ExitCode::FAILURE)
    }
}
