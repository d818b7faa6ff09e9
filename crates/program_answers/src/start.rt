//! The words that a program is called with.
ghost use Rattle.std.specs.Prelude.{◌≡◌, ◌≢◌};

use crate::answer::Due;
use std::io::ErrorKind;
use std::rt::Env;
use std::{env, io};

/// The words that the program was called with, the first of which is its name.
pub fn words<R: Env + AllocGlobal>(rt: &R) -> io::Result<Vec<String>> {
    let words = env::args(rt)?.collect(rt.alloc())?;
    Ok(words)
}

/// What is due where the words cannot be had: those that are no text are not read.
pub fn without_words(kind: ErrorKind) -> Due
    ensures memory { kind ≡ ErrorKind.OutOfMemory → result ≡ Due.OutOfMemory }
    ensures other { kind ≢ ErrorKind.OutOfMemory → result ≡ Due.Usage }
{
    if kind == ErrorKind::OutOfMemory {
        Due::OutOfMemory
    } else {
        Due::Usage
    }
}
