//! Files to a checked program, or the first rule that refuses them.

ghost use Rattle.std.specs.Prelude.{◌≡◌, ◌<◌, ◌≤◌, length, IfOk, IfErr};
ghost use Rattle.checked_program.specs.MarkedProgram.{MarkedProgram};
ghost use Rattle.class_runner.specs.Loading.{IsLoaded, IsAccepted, IsNotLoaded};

use crate::linking::link_files;
use crate::reading::read_files;
use crate::tagging::tag_files;
use crate::verifying::verify_files;
use checked_program::Checked;
use guard_analysis::mark;
use jvm_types::limits::{LEAST_HEAP, MOST_FILES, MOST_HEAP, MOST_WORKERS};
use jvm_types::{Bytes, Place, Rows, Rule};
use run_texts::RefusalText;
use std::alloc::{AllocError, Global};
use std::fmt;
use thiserror::Error;

/// Why files were not loaded.
#[derive(Debug, Drop, Error)]
pub enum FileError {
    /// Memory ran out.
    Memory,
    /// The first rule that refuses the files, and where.
    Refused(Rule, Place),
}

impl From<AllocError> for FileError {
    ghost use Rattle.std.specs.Prelude.{◌≡◌};
    ghost use Rattle.class_runner.specs.declared.loading.FileError.TheVariants.{Memory};

    ghost from_gives = { λ _ e. e ≡ Memory };

    fn from(_error: AllocError) -> FileError {
        FileError::Memory
    }
}

impl fmt::Display for FileError {
    ghost use Rattle.std.specs.Prelude.{Some};
    ghost use Rattle.class_runner.specs.ErrorText.{error_text};

    ghost output = { λ e. Some (error_text e) };

    fn fmt<W: fmt::Write>(&self, f: &mut fmt::Formatter<W>) -> fmt::Result {
        match self {
            FileError::Memory => f.write_str("out of memory"),
            FileError::Refused(rule, place) => {
                let refusal = RefusalText(*rule, *place);
                write!(f, "{refusal}")
            }
        }
    }
}

/// The checked program of some files, of which there are 1 to 64, with so many heap words and
/// workers. The first rule that refuses the files is answered with its place. Each file is read as
/// a class (C), in order; then each method is decoded (K), in order of files and methods; then the
/// files are linked (L); then each method is verified (V); then each is tagged (S).
pub fn load_program(
    alloc: Global,
    files: &Rows<Bytes>,
    heap: u32,
    workers: u8,
) -> Result<Checked, FileError>
    requires some_file { 0 < length files.now }
    requires few_files { length files.now ≤ MOST_FILES }
    requires heap_from { LEAST_HEAP ≤ heap }
    requires heap_to { heap ≤ MOST_HEAP }
    requires workers { workers ≤ MOST_WORKERS }
    // What is answered is the program of the files, with its typings, tags and marks.
    ensures ok { IfOk result (λ c. IsLoaded files.now heap workers c) }
    // Files that are loaded to a program are answered with no other, and accepted files are not
    // refused.
    ensures only { (c : MarkedProgram) → IsLoaded files.now heap workers c
        → IfOk result (λ found. found ≡ c) }
    ensures accepted { IsAccepted files.now heap workers
        → IfErr result (λ e. e ≡ FileError.Memory) }
    ensures refused { IfErr result (λ e. IsNotLoaded files.now heap workers e) }
{
    load_files(alloc, files.as_slice(), heap, workers)
}

/// The checked program of some files, or the first rule that refuses them.
fn load_files(alloc: Global, files: &[Bytes], heap: u32, workers: u8) -> Result<Checked, FileError>
    requires some_file { 0 < length files.now }
    requires few_files { length files.now ≤ MOST_FILES }
    requires heap_from { LEAST_HEAP ≤ heap }
    requires heap_to { heap ≤ MOST_HEAP }
    requires workers { workers ≤ MOST_WORKERS }
    ensures ok { IfOk result (λ c. IsLoaded files.now heap workers c) }
    ensures refused { IfErr result (λ e. IsNotLoaded files.now heap workers e) }
{
    let classes = read_files(alloc, files)?;
    let program = link_files(alloc, &classes, heap, workers)?;
    let typings = verify_files(alloc, classes.as_slice(), &program)?;
    let tags = tag_files(alloc, classes.as_slice(), &program)?;
    let marks = mark(alloc, &program, &tags)?;
    Ok(Checked::of(program, typings, tags, marks).indexed(alloc)?)
}
