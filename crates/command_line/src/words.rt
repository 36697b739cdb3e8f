//! The words of a command line.
ghost use Rattle.std.specs.Prelude.{◌≡◌, [], map, get_or, string_bytes};

use anyhow::anyhow;
use std::env;
use std::env::Env;
use std::io::{Eprint, ErrorKind};

/// The words behind the program's name. Says how the program is used where one of them is no text, which cannot be shown.
pub fn words<R: Env + Eprint + AllocGlobal>(rt: &R, usage: &str) -> anyhow::Result<Vec<String>> {
    match env::args(rt) {
        Ok(args) => {
            let words: Vec<String> = args.skip(1).collect(rt.alloc())?;
            Ok(words)
        }
        Err(error) if error.kind() == ErrorKind::InvalidData => {
            rt.eprintln(usage)?;
            Err(anyhow!("an argument is no text in UTF-8"))
        }
        Err(error) => Err(error.into()),
    }
}

/// The word with this number, counted from 0: an empty one where there are no more.
pub fn word(words: &[String], at: usize) -> &str
    ensures { result.now ≡ get_or (map string_bytes words.now) at [] }
{
    words.get(at).map_or("", |word| word.as_str())
}
