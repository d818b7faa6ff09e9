//! Classes to the program that they are linked to.

ghost use Rattle.std.specs.Prelude.{◌≡◌, ◌<◌, ◌≤◌, length, IfOk, IfErr};
ghost use Rattle.std.specs.List.{AllByRecursion};
ghost use Rattle.jvm_types.specs.ClassGrammar.{IsClass};
ghost use Rattle.jvm_types.specs.Members.{declared_methods};
ghost use Rattle.jvm_types.specs.ProgramInvariant.{IsProgram};
ghost use Rattle.class_runner.specs.Stages.{IsLinkedFrom, IsUnlinkedFrom};

use crate::decoding::decode_files;
use crate::loading::FileError;
use jvm_types::limits::{LEAST_HEAP, MOST_FILES, MOST_HEAP, MOST_WORKERS};
use jvm_types::{ClassFile, Program, Rows, Rule};
use linker::{LinkError, link_owned};
use std::alloc::Global;

/// The program of some classes. All their methods are decoded before they are linked.
pub fn link_files(
    alloc: Global,
    classes: &Rows<ClassFile>,
    heap: u32,
    workers: u8,
) -> Result<Program, FileError>
    requires some_file { 0 < length classes.now }
    requires few_files { length classes.now ≤ MOST_FILES }
    requires classes { AllByRecursion IsClass classes.now }
    requires heap_from { LEAST_HEAP ≤ heap }
    requires heap_to { heap ≤ MOST_HEAP }
    requires workers { workers ≤ MOST_WORKERS }
    ensures ok { IfOk result (λ p. IsLinkedFrom classes.now heap workers p) }
    ensures program { IfOk result (λ p. IsProgram p) }
    // The program has the methods of the classes.
    ensures methods { IfOk result (λ p. length p.methods ≡ length (declared_methods classes.now)) }
    ensures refused { IfErr result (λ e. IsUnlinkedFrom classes.now heap workers e) }
{
    let code = decode_files(alloc, classes.as_slice())?;
    match link_owned(alloc, classes, code, heap, workers) {
        Ok(program) => Ok(program),
        Err(LinkError::Memory) => Err(FileError::Memory),
        Err(LinkError::Refused(rule, place)) => Err(FileError::Refused(Rule::L(rule), place)),
    }
}
