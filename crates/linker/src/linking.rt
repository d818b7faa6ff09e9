//! The linked program of some files.

ghost use Rattle.std.specs.Prelude.{◌≡◌, ◌≤◌, IfOk, IfErr};
ghost use Rattle.std.specs.List.{sum_by};
ghost use Rattle.jvm_types.specs.LinkFaults.{IsLinked, link_fault};
ghost use Rattle.jvm_types.specs.Linkable.{IsLinkable};
ghost use Rattle.jvm_types.specs.ProgramInvariant.{IsProgram};
ghost use Rattle.linker.specs.Linking.{IsLinkErrorOf, copied_bytes};

use crate::budget::MOST_COPIED;
use crate::copies::copy_code;
use crate::error::LinkError;
use crate::layout::lay_out;
use crate::methods::link_methods;
use constant_pools::pool_texts::class_names;
use jvm_types::link_laws::linked_is_program;
use jvm_types::{ClassFile, Insn, Program, Rows};
use link_rules::{class_pass, member_pass, root_pass, word_pass};
use link_scope::Scope;
use std::alloc::Global;

/// The program of the files of a scope, or the first rule that refuses them. Five passes go over
/// the files: the classes (L6, L5), their members (L1, L5, L9), what instructions and handler rows
/// name (L1, L2, L3, L7), the methods that the machine begins with (L4), and the words (L8).
fn link_passes(
    alloc: Global,
    scope: &Scope<'_>,
    code: Rows<Rows<Insn>>,
    heap: u32,
    workers: u8,
) -> Result<Program, LinkError>
    requires { IsLinkable scope.now code heap workers }
    ensures ok { IfOk result (λ p. IsLinked scope.now code heap workers p) }
    ensures copied { IfOk result (λ p. sum_by copied_bytes p.methods ≤ MOST_COPIED) }
    ensures refused { IfErr result (λ e. IsLinkErrorOf (link_fault scope.now code heap workers) e) }
{
    class_pass(scope)?;
    member_pass(scope)?;
    let methods = link_methods(alloc, scope, code)?;
    root_pass(scope, workers)?;
    word_pass(scope, heap)?;
    let fields = lay_out(alloc, scope)?;
    Ok(Program {
        names: class_names(alloc, scope.files().as_slice())?,
        fields,
        methods,
        heap,
        workers,
    })
}

/// The same program, which keeps the invariant of programs.
fn link_scoped(
    alloc: Global,
    scope: &Scope<'_>,
    code: Rows<Rows<Insn>>,
    heap: u32,
    workers: u8,
) -> Result<Program, LinkError>
    requires { IsLinkable scope.now code heap workers }
    ensures ok { IfOk result (λ p. IsLinked scope.now code heap workers p) }
    ensures program { IfOk result (λ p. IsProgram p) }
    ensures copied { IfOk result (λ p. sum_by copied_bytes p.methods ≤ MOST_COPIED) }
    ensures refused { IfErr result (λ e. IsLinkErrorOf (link_fault scope.now code heap workers) e) }
{
    let program = link_passes(alloc, scope, code, heap, workers)?;
    linked_is_program();
    Ok(program)
}

/// The program of some files, whose methods take over the instructions of `code`, in order of files
/// and methods: names are numbers, and each field has its place (JVMS 5.4). The first rule of L1 to
/// L9 that refuses the files is answered, with its place.
pub fn link_owned(
    alloc: Global,
    files: &Rows<ClassFile>,
    code: Rows<Rows<Insn>>,
    heap: u32,
    workers: u8,
) -> Result<Program, LinkError>
    requires { IsLinkable files.now code heap workers }
    ensures ok { IfOk result (λ p. IsLinked files.now code heap workers p) }
    ensures program { IfOk result (λ p. IsProgram p) }
    // What a program copies of texts and types is bounded.
    ensures copied { IfOk result (λ p. sum_by copied_bytes p.methods ≤ MOST_COPIED) }
    ensures refused { IfErr result (λ e. IsLinkErrorOf (link_fault files.now code heap workers) e) }
{
    let scope = Scope::of(alloc, files)?;
    link_scoped(alloc, &scope, code, heap, workers)
}

/// The same with a copy of the instructions.
pub fn link(
    alloc: Global,
    files: &Rows<ClassFile>,
    code: &Rows<Rows<Insn>>,
    heap: u32,
    workers: u8,
) -> Result<Program, LinkError>
    requires { IsLinkable files.now code.now heap workers }
    ensures ok { IfOk result (λ p. IsLinked files.now code.now heap workers p) }
    ensures program { IfOk result (λ p. IsProgram p) }
    // What a program copies of texts and types is bounded.
    ensures copied { IfOk result (λ p. sum_by copied_bytes p.methods ≤ MOST_COPIED) }
    ensures refused { IfErr result
        (λ e. IsLinkErrorOf (link_fault files.now code.now heap workers) e) }
{
    let copy = copy_code(alloc, code.as_slice())?;
    link_owned(alloc, files, copy, heap, workers)
}
