ghost use Rattle.std.specs.Prelude.{◌≡◌};
ghost use Rattle.program_answers.specs.Answers.{due_text, status_of};
ghost use Rattle.program_answers.specs.Unread.{IsUnreadLine};

use crate::finish::Finish;
use jvm_types::Bytes;
use run_texts::unread_file;
use std::alloc::{AllocError, Global};

const OUT_OF_MEMORY: &str = "out of memory\n";

/// What is due: a text, and a status with it. Each text but those that had to be made needs no
/// memory.
#[derive(Debug, Drop)]
pub enum Due {
    /// The report of a run, of a program or of a cell, and how the run finished.
    Report(Finish, Bytes),
    /// What is said of files, or made of them, where nothing runs.
    Output(Bytes),
    /// The words are not read: the program's line of use.
    Usage,
    /// What is said of the rule that refuses the files.
    Refusal(Bytes),
    /// The shelf failed: the line of the file that can't be read.
    CannotRead(Bytes),
    /// Memory ran out.
    OutOfMemory,
}

impl Due {
    /// The status that goes with the text, where the text is written whole.
    pub fn status(&self) -> u8
        ensures { result ≡ status_of self.now }
    {
        match self {
            Due::Report(finish, _) => finish.status(),
            Due::Output(_) => 0,
            Due::Usage => 2,
            Due::Refusal(_) => 3,
            Due::CannotRead(_) => 4,
            Due::OutOfMemory => 6,
        }
    }

    /// The text, in a program of that line of use: it ends with a newline, or is that of a class
    /// file.
    pub fn text(&self, usage: &'static str) -> &[u8]
        ensures { result.now ≡ due_text usage.now self.now }
    {
        match self {
            Due::Report(_, text) | Due::Output(text) | Due::Refusal(text) | Due::CannotRead(text) =>
                text.as_slice(),
            Due::Usage => usage.as_bytes(),
            Due::OutOfMemory => OUT_OF_MEMORY.as_bytes(),
        }
    }
}

/// The file of that number can't be read.
pub fn cannot_read(alloc: Global, file: u16) -> Due
    ensures { IsUnreadLine file result }
{
    match unread_file(alloc, file) {
        Ok(line) => Due::CannotRead(line),
        Err(AllocError) => Due::OutOfMemory,
    }
}
