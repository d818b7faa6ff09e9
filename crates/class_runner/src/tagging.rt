//! The methods of a linked program to lock tags.

ghost use Rattle.std.specs.Prelude.{◌≡◌, ◌<◌, ◌≤◌, ◌+◌, ◌++◌, List, length, slice_get, IfOk, IfErr};
ghost use Rattle.std.specs.Prelude.{OnOk};
ghost use Rattle.std.specs.List.{AllByRecursion};
ghost use Rattle.jvm_types.specs.ClassGrammar.{IsClass};
ghost use Rattle.jvm_types.specs.Members.{Declared, declared_methods};
ghost use Rattle.jvm_types.specs.ProgramInvariant.{IsProgram};
ghost use Rattle.checked_program.specs.MarkedProgram.{AreTaggings};
ghost use Rattle.class_runner.specs.Stages.{own_methods, IsTaggedAt, IsUntaggedAt, IsNotTagged};
ghost use Rattle.class_runner.specs.Stages.{AreTaggedSoFar};

use crate::budget::frames_budget;
use crate::loading::FileError;
use checked_program::Tags;
use code_verifier::Budget;
use jvm_types::limits::{MOST_FILES, MOST_METHODS};
use jvm_types::{ClassFile, Program, Rows, Rule, in_method};
use monitor_tags::{TagError, tag_within};
use std::alloc::Global;

/// The lock tags of a method of the program, which is the one of this number in its class in a
/// file.
fn tag_method(
    alloc: Global,
    program: &Program,
    method: u32,
    file: u16,
    number: u16,
    budget: &mut Budget,
) -> Result<Tags, FileError>
    requires program { IsProgram program.now }
    requires method { method < length program.now.methods }
    ensures ok { IfOk result
        (λ t. IsTaggedAt program.now (slice_get program.now.methods method) t) }
    ensures refused { IfErr result
        (λ e. IsUntaggedAt program.now (slice_get program.now.methods method) file number e) }
{
    match tag_within(alloc, program, method, budget) {
        Ok(tags) => Ok(tags),
        Err(TagError::Memory) => Err(FileError::Memory),
        Err(TagError::Refused(rule, pc)) => Err(FileError::Refused(
            Rule::S(rule),
            in_method(file, number, pc),
        )),
    }
}

/// Adds the lock tags of each method of a class, in order. Those of the methods before it are
/// there.
fn tag_class(
    alloc: Global,
    program: &Program,
    file: u16,
    class: &ClassFile,
    tags: &mut Rows<Tags>,
    budget: &mut Budget,
) -> Result<(), FileError>
    requires program { IsProgram program.now }
    requires class { IsClass class.now }
    requires all { length tags.old + length class.now.methods ≤ length program.now.methods }
    requires few { length program.now.methods ≤ MOST_METHODS }
    ensures ok { OnOk result ((left all : List Declared)
        → AreTaggedSoFar program.now (own_methods file class.now ++ left) all tags.old
        → AreTaggedSoFar program.now left all tags.new) }
    ensures refused { IfErr result (λ e.
        (left all : List Declared)
        → AreTaggedSoFar program.now (own_methods file class.now ++ left) all tags.old
        → IsNotTagged program.now all program.now.methods e) }
{
    for number in 0..class.methods.len() {
        let method = tags.len() as u32;
        let number = number as u16;
        tags.push(tag_method(alloc, program, method, file, number, budget)?)?;
    }
    Ok(())
}

/// The lock tags of each method of the program that the classes are linked to, in order. The
/// first method that has none refuses the files. What all tags keep together is taken from one
/// budget; where that is spent, memory is wanting.
pub fn tag_files(
    alloc: Global,
    classes: &[ClassFile],
    program: &Program,
) -> Result<Rows<Tags>, FileError>
    requires few { length classes.now ≤ MOST_FILES }
    requires classes { AllByRecursion IsClass classes.now }
    requires program { IsProgram program.now }
    requires methods { length program.now.methods ≡ length (declared_methods classes.now) }
    ensures ok { IfOk result (λ tags. AreTaggings program.now program.now.methods tags) }
    ensures refused { IfErr result
        (λ e. IsNotTagged program.now (declared_methods classes.now) program.now.methods e) }
{
    let mut budget = frames_budget(classes, program);
    let mut tags = Rows::new(alloc);
    for (file, class) in classes.iter().enumerate() {
        tag_class(alloc, program, file as u16, class, &mut tags, &mut budget)?;
    }
    Ok(tags)
}
