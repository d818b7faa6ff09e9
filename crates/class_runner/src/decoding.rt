//! The methods of classes to instructions.

ghost use Rattle.std.specs.Prelude.{◌≡◌, ◌≤◌, ◌++◌, None, List, length, IfOk, IfErr, OnOk};
ghost use Rattle.std.specs.List.{AllByRecursion, AllZip};
ghost use Rattle.jvm_types.specs.ClassGrammar.{IsClass, HasBody};
ghost use Rattle.jvm_types.specs.CodeGrammar.{IsCode};
ghost use Rattle.jvm_types.specs.Members.{Declared, declared_methods};
ghost use Rattle.jvm_types.specs.Linked.{code_of as the_code};
ghost use Rattle.jvm_types.specs.Linkable.{IsDecoded};
ghost use Rattle.class_runner.specs.Loading.{decode_fault};
ghost use Rattle.class_runner.specs.Stages.{own_methods, method_code_fault, IsUndecoded};
ghost use Rattle.class_runner.specs.Stages.{AreDecodedSoFar};

use crate::budget::{code_budget, insns_bytes};
use crate::loading::FileError;
use code_decode::{CodeError, decode};
use code_verifier::Budget;
use jvm_types::code_attribute::code_of;
use jvm_types::limits::{MOST_COUNTED, MOST_FILES};
use jvm_types::{ClassFile, Insn, Member, Rows, Rule, in_method};
use std::alloc::Global;

/// The instructions of a method, by its file and its number in its class. What they take is taken
/// from the budget.
fn decode_method(
    alloc: Global,
    file: u16,
    number: u16,
    method: &Member,
    budget: &mut Budget,
) -> Result<Rows<Insn>, FileError>
    requires body { HasBody method.now }
    requires rows { length (the_code method.now.attrs).rows ≤ MOST_COUNTED }
    ensures ok { IfOk result
        (λ insns. IsCode (the_code method.now.attrs).bytes (the_code method.now.attrs).rows insns) }
    ensures refused { IfErr result
        (λ e. IsUndecoded (method_code_fault file number (the_code method.now.attrs)) e) }
{
    let Some(code) = code_of(method.attrs.as_slice()) else {
        unreachable!()
    };
    match decode(alloc, &code.bytes, &code.rows) {
        Ok(insns) => {
            budget.take(insns_bytes(insns.len()))?;
            Ok(insns)
        }
        Err(CodeError::Memory) => Err(FileError::Memory),
        Err(CodeError::Refused(rule, at)) => Err(FileError::Refused(
            Rule::K(rule),
            in_method(file, number, at),
        )),
    }
}

/// Adds the instructions of each method of a class, in order.
fn decode_class(
    alloc: Global,
    file: u16,
    class: &ClassFile,
    code: &mut Rows<Rows<Insn>>,
    budget: &mut Budget,
) -> Result<(), FileError>
    requires { IsClass class.now }
    ensures ok { OnOk result ((left all : List Declared)
        → AreDecodedSoFar (own_methods file class.now ++ left) all code.old
        → AreDecodedSoFar left all code.new) }
    ensures refused { IfErr result (λ e.
        (left all : List Declared)
        → AreDecodedSoFar (own_methods file class.now ++ left) all code.old
        → IsUndecoded (decode_fault all) e) }
{
    for (number, method) in class.methods.as_slice().iter().enumerate() {
        code.push(decode_method(alloc, file, number as u16, method, budget)?)?;
    }
    Ok(())
}

/// The instructions of each method, in order of files and methods. The first method whose code has
/// a fault refuses the files. Where there are more instructions than can be loaded, memory is
/// wanting.
pub fn decode_files(alloc: Global, classes: &[ClassFile]) -> Result<Rows<Rows<Insn>>, FileError>
    requires few { length classes.now ≤ MOST_FILES }
    requires classes { AllByRecursion IsClass classes.now }
    ensures ok { IfOk result (λ code. AllZip IsDecoded (declared_methods classes.now) code) }
    ensures refused { IfErr result
        (λ e. IsUndecoded (decode_fault (declared_methods classes.now)) e) }
{
    let mut budget = code_budget(classes);
    let mut code = Rows::new(alloc);
    for (file, class) in classes.iter().enumerate() {
        decode_class(alloc, file as u16, class, &mut code, &mut budget)?;
    }
    Ok(code)
}
