//! Files to classes.

ghost use Rattle.std.specs.Prelude.{◌≡◌, ◌≤◌, None, length, IfOk, IfErr, OnOk};
ghost use Rattle.std.specs.List.{AllZip};
ghost use Rattle.jvm_types.specs.ClassGrammar.{Spells};
ghost use Rattle.jvm_types.specs.ReadingClass.{class_fault};
ghost use Rattle.class_runner.specs.Loading.{read_fault};
ghost use Rattle.class_runner.specs.Stages.{file_fault, IsClassUnread};

use crate::budget::MOST_LOADED;
use crate::loading::FileError;
use crate::reckoning::class_bytes;
use class_reader::{ReadError, read_class};
use code_verifier::Budget;
use jvm_types::limits::MOST_FILES;
use jvm_types::{Bytes, ClassFile, Rows, Rule, in_file};
use std::alloc::Global;

/// The class that a file spells, or the first fault of the file. What the class takes is taken from
/// the budget.
fn read_file(
    alloc: Global,
    file: u16,
    bytes: &Bytes,
    budget: &mut Budget,
) -> Result<ClassFile, FileError>
    ensures ok { IfOk result (λ c. Spells bytes.now c) }
    ensures faultless { OnOk result (class_fault bytes.now ≡ None) }
    ensures refused { IfErr result (λ e. IsClassUnread (file_fault file bytes.now) e) }
{
    match read_class(alloc, bytes) {
        Ok(class) => {
            budget.take(class_bytes(&class))?;
            Ok(class)
        }
        Err(ReadError::Memory) => Err(FileError::Memory),
        Err(ReadError::Refused(rule, at)) => {
            Err(FileError::Refused(Rule::C(rule), in_file(file, at)))
        }
    }
}

/// The classes that the files spell, in order. The first file that spells none refuses them. Where
/// they would take more than `MOST_LOADED` bytes together, memory is wanting.
pub fn read_files(alloc: Global, files: &[Bytes]) -> Result<Rows<ClassFile>, FileError>
    requires { length files.now ≤ MOST_FILES }
    ensures ok { IfOk result (λ classes. AllZip Spells files.now classes) }
    ensures refused { IfErr result (λ e. IsClassUnread (read_fault 0 files.now) e) }
{
    let mut budget = Budget::of(MOST_LOADED);
    let mut classes = Rows::new(alloc);
    for (file, bytes) in files.iter().enumerate() {
        classes.push(read_file(alloc, file as u16, bytes, &mut budget)?)?;
    }
    Ok(classes)
}
