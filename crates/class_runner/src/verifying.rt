//! The methods of a linked program to typings.

ghost use Rattle.std.specs.Prelude.{◌≡◌, ◌<◌, ◌≤◌, ◌+◌, ◌++◌, List, length, slice_get, IfOk, IfErr};
ghost use Rattle.std.specs.Prelude.{OnOk};
ghost use Rattle.std.specs.List.{AllByRecursion};
ghost use Rattle.jvm_types.specs.ClassGrammar.{IsClass};
ghost use Rattle.jvm_types.specs.Members.{Declared, declared_methods};
ghost use Rattle.jvm_types.specs.ProgramInvariant.{IsProgram};
ghost use Rattle.checked_program.specs.CheckedProgram.{AreTypings};
ghost use Rattle.class_runner.specs.Stages.{own_methods, IsTypedAt, IsUntypedAt, IsUnverified};
ghost use Rattle.class_runner.specs.Stages.{AreTypedSoFar};

use crate::budget::frames_budget;
use crate::loading::FileError;
use code_verifier::{Budget, VerifyError, verify_within};
use jvm_types::limits::{MOST_FILES, MOST_METHODS};
use jvm_types::{ClassFile, Program, Rows, Rule, Typing, in_method};
use std::alloc::Global;

/// The typing of a method of the program, which is the one of this number in its class in a file.
fn verify_method(
    alloc: Global,
    program: &Program,
    method: u32,
    file: u16,
    number: u16,
    budget: &mut Budget,
) -> Result<Typing, FileError>
    requires program { IsProgram program.now }
    requires method { method < length program.now.methods }
    ensures ok { IfOk result (λ t. IsTypedAt program.now (slice_get program.now.methods method) t) }
    ensures refused { IfErr result
        (λ e. IsUntypedAt program.now (slice_get program.now.methods method) file number e) }
{
    match verify_within(alloc, program, method, budget) {
        Ok(typing) => Ok(typing),
        Err(VerifyError::Memory) => Err(FileError::Memory),
        Err(VerifyError::Refused(rule, pc)) => Err(FileError::Refused(
            Rule::V(rule),
            in_method(file, number, pc),
        )),
    }
}

/// Adds the typing of each method of a class, in order. Those of the methods before it are there.
fn verify_class(
    alloc: Global,
    program: &Program,
    file: u16,
    class: &ClassFile,
    typings: &mut Rows<Typing>,
    budget: &mut Budget,
) -> Result<(), FileError>
    requires program { IsProgram program.now }
    requires class { IsClass class.now }
    requires all { length typings.old + length class.now.methods ≤ length program.now.methods }
    requires few { length program.now.methods ≤ MOST_METHODS }
    ensures ok { OnOk result ((left all : List Declared)
        → AreTypedSoFar program.now (own_methods file class.now ++ left) all typings.old
        → AreTypedSoFar program.now left all typings.new) }
    ensures refused { IfErr result (λ e.
        (left all : List Declared)
        → AreTypedSoFar program.now (own_methods file class.now ++ left) all typings.old
        → IsUnverified program.now all program.now.methods e) }
{
    for number in 0..class.methods.len() {
        let method = typings.len() as u32;
        let number = number as u16;
        typings.push(verify_method(alloc, program, method, file, number, budget)?)?;
    }
    Ok(())
}

/// The typing of each method of the program that the classes are linked to, in order. The first
/// method that has none refuses the files. What all typings keep together is taken from one
/// budget; where that is spent, memory is wanting.
pub fn verify_files(
    alloc: Global,
    classes: &[ClassFile],
    program: &Program,
) -> Result<Rows<Typing>, FileError>
    requires few { length classes.now ≤ MOST_FILES }
    requires classes { AllByRecursion IsClass classes.now }
    requires program { IsProgram program.now }
    requires methods { length program.now.methods ≡ length (declared_methods classes.now) }
    ensures ok { IfOk result (λ typings. AreTypings program.now program.now.methods typings) }
    ensures refused { IfErr result
        (λ e. IsUnverified program.now (declared_methods classes.now) program.now.methods e) }
{
    let mut budget = frames_budget(classes, program);
    let mut typings = Rows::new(alloc);
    for (file, class) in classes.iter().enumerate() {
        verify_class(
            alloc,
            program,
            file as u16,
            class,
            &mut typings,
            &mut budget,
        )?;
    }
    Ok(typings)
}
