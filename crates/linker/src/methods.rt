//! The methods of the program: their names, types and instructions, and what these name (JVMS 4.6,
//! 4.7.3, 5.4.3). This is the third pass of linking too: it refuses files by what their methods
//! name.

ghost use Rattle.std.specs.Prelude.{◌≡◌, ◌<◌, ◌≤◌, ◌+◌, ◌∷◌, [], map, drop, length, slice_get};
ghost use Rattle.std.specs.Prelude.{Some, None, IfOk, IfErr, OnOk};
ghost use Rattle.std.specs.List.{AllByRecursion, sum_by};
ghost use Rattle.jvm_types.specs.ClassGrammar.{IsHandler, IsIndex, IsMethod, HasBody};
ghost use Rattle.jvm_types.specs.declared.index_kind.IndexKind.TheVariants as kinds;
ghost use Rattle.jvm_types.specs.ClassNames.{text_at};
ghost use Rattle.jvm_types.specs.Members.{declared_from, declared_methods};
ghost use Rattle.jvm_types.specs.Linked.{scope_of, code_of, site_of, resolved_target, resolved_row};
ghost use Rattle.jvm_types.specs.Linked.{resolved_signature, linked_method, linked_methods};
ghost use Rattle.jvm_types.specs.Linked.{coded_methods};
ghost use Rattle.jvm_types.specs.LinkFaults.{first_fault, insn_fault, row_fault, uses_fault};
ghost use Rattle.jvm_types.specs.LinkFaults.{use_pass};
ghost use Rattle.descriptors.specs.Signatures.{meaning};
ghost use Rattle.linker.specs.Linking.{IsLinkErrorOf, IsMadeOrRefused, Links, AreLinked};
ghost use Rattle.linker.specs.Linking.{use_faults, method_of, copied_bytes};

use crate::budget::{Budget, MOST_COPIED};
use crate::error::LinkError;
use descriptors::Signature;
use jvm_types::{
    Code, Handler, Insn, Member, MethodInfo, Row, Rows, Site, Target, code_attribute, in_method,
};
use link_rules::{Fault, catch_class, target_of};
use link_scope::{FileScope, Scope};
use lists::Stack;
use std::alloc::{AllocError, Global};

/// The Code attribute of a method (JVMS 4.7.3).
fn own_code(method: &Member) -> &Code
    requires { HasBody method.now }
    ensures { result.now ≡ code_of method.now.attrs }
{
    match code_attribute::code_of(method.attrs.as_slice()) {
        Some(code) => code,
        None => unreachable!(),
    }
}

/// What the constant of an instruction names, at a method with this number in its class.
fn resolve_target(
    file: &FileScope<'_, '_>,
    number: u16,
    method: &Member,
    insn: &Insn,
) -> Result<Target, Fault>
    ensures { IsMadeOrRefused
        (insn_fault (scope_of file.now.files) (method_of file.now number method.now) insn.now)
        (resolved_target (scope_of file.now.files) (site_of (method_of file.now number method.now))
        file.now.class.constants insn.now) result }
{
    let site = Site {
        class: file.own_class(),
        name: file.text(method.name),
    };
    match target_of(file, &site, &insn.op) {
        Ok(target) => Ok(target),
        Err(rule) => Err((rule, in_method(file.number(), number, insn.pc))),
    }
}

/// What the constants of the instructions of a method name, in order.
fn resolve_targets(
    alloc: Global,
    file: &FileScope<'_, '_>,
    number: u16,
    method: &Member,
    insns: &[Insn],
) -> Result<Rows<Target>, LinkError>
    ensures { Links (first_fault (map
        (insn_fault (scope_of file.now.files) (method_of file.now number method.now)) insns.now))
        (map (resolved_target (scope_of file.now.files)
        (site_of (method_of file.now number method.now)) file.now.class.constants) insns.now)
        result }
{
    let mut targets = Rows::new(alloc);
    for insn in insns {
        targets.push(resolve_target(file, number, method, insn)?)?;
    }
    Ok(targets)
}

/// A handler row of a method, with what it catches.
fn resolve_row(
    file: &FileScope<'_, '_>,
    number: u16,
    method: &Member,
    handler: &Handler,
) -> Result<Row, Fault>
    requires { IsIndex kinds.CatchType file.now.class.constants handler.now.catch_type }
    ensures { IsMadeOrRefused
        (row_fault (scope_of file.now.files) (method_of file.now number method.now) handler.now)
        (resolved_row (scope_of file.now.files) file.now.class.constants handler.now) result }
{
    let start = u32::from(handler.start);
    match catch_class(file, handler.catch_type) {
        Ok(catch_class) => Ok(Row {
            start,
            end: u32::from(handler.end),
            handler: u32::from(handler.handler),
            catch_class,
        }),
        Err(rule) => Err((rule, in_method(file.number(), number, start))),
    }
}

/// The handler rows of a method, in order.
fn resolve_rows(
    alloc: Global,
    file: &FileScope<'_, '_>,
    number: u16,
    method: &Member,
    handlers: &[Handler],
) -> Result<Rows<Row>, LinkError>
    requires { AllByRecursion (IsHandler file.now.class.constants) handlers.now }
    ensures { Links (first_fault (map
        (row_fault (scope_of file.now.files) (method_of file.now number method.now)) handlers.now))
        (map (resolved_row (scope_of file.now.files) file.now.class.constants) handlers.now)
        result }
{
    let mut rows = Rows::new(alloc);
    for handler in handlers {
        rows.push(resolve_row(file, number, method, handler)?)?;
    }
    Ok(rows)
}

/// What the descriptor of a method says.
fn signature_of(
    alloc: Global,
    file: &FileScope<'_, '_>,
    method: &Member,
) -> Result<Signature, AllocError>
    ensures { IfOk result (λ types.
        meaning types ≡ resolved_signature (scope_of file.now.files)
        (text_at file.now.class.constants method.now.descriptor)) }
{
    match file.signature(alloc, method.descriptor)? {
        Some(types) => Ok(types),
        None => Ok(Signature {
            args: Rows::new(alloc),
            result: None,
        }),
    }
}

/// A method of a file, which takes over its instructions.
fn link_method(
    alloc: Global,
    file: &FileScope<'_, '_>,
    number: u16,
    method: &Member,
    insns: Rows<Insn>,
    budget: &mut Budget,
) -> Result<MethodInfo, LinkError>
    requires { IsMethod file.now.class.constants method.now }
    ensures linked { Links
        (uses_fault (scope_of file.now.files) (method_of file.now number method.now, insns))
        (linked_method (scope_of file.now.files) (method_of file.now number method.now) insns)
        result }
    ensures copied { IfOk result (λ m. copied_bytes m + budget.new.left ≡ budget.old.left) }
{
    let code = own_code(method);
    let targets = resolve_targets(alloc, file, number, method, insns.as_slice())?;
    let rows = resolve_rows(alloc, file, number, method, code.rows.as_slice())?;
    let name = budget.copy_text(alloc, file.text(method.name))?;
    let descriptor = budget.copy_text(alloc, file.text(method.descriptor))?;
    let types = signature_of(alloc, file, method)?;
    Ok(MethodInfo {
        class: file.own_class(),
        flags: method.flags,
        name,
        descriptor,
        args: budget.copy_kinds(alloc, types.args.as_slice())?,
        result: types.result,
        max_stack: code.max_stack,
        max_locals: code.max_locals,
        code: insns,
        targets,
        rows,
    })
}

/// Adds a method of a file, with the first instructions of `code`.
fn link_member(
    alloc: Global,
    file: &FileScope<'_, '_>,
    number: u16,
    method: &Member,
    code: &mut Stack<Rows<Insn>>,
    methods: &mut Rows<MethodInfo>,
    budget: &mut Budget,
) -> Result<(), LinkError>
    requires { IsMethod file.now.class.constants method.now }
    ensures linked { OnOk result (AreLinked (scope_of file.now.files)
        (method_of file.now number method.now ∷ []) code.old code.new methods.old methods.new) }
    ensures refused { IfErr result (IsLinkErrorOf (use_faults (scope_of file.now.files)
        (method_of file.now number method.now ∷ []) code.old)) }
    ensures copied { OnOk result (sum_by copied_bytes methods.new + budget.new.left
        ≡ sum_by copied_bytes methods.old + budget.old.left) }
{
    match code.pop() {
        Some(insns) => {
            let linked = link_method(alloc, file, number, method, insns, budget)?;
            methods.push(linked)?;
            Ok(())
        }
        None => Ok(()),
    }
}

/// Adds the methods of a file, each with the next instructions of `code`.
#[tactic(auto, using(crate::proofs::Coding::method_at, crate::proofs::Coding::number_at))]
fn link_class(
    alloc: Global,
    file: &FileScope<'_, '_>,
    code: &mut Stack<Rows<Insn>>,
    methods: &mut Rows<MethodInfo>,
    budget: &mut Budget,
) -> Result<(), LinkError>
    ensures linked { OnOk result (AreLinked (scope_of file.now.files)
        (declared_from file.now.number file.now.class.constants 0 file.now.class.methods)
        code.old code.new methods.old methods.new) }
    ensures refused { IfErr result (IsLinkErrorOf (use_faults (scope_of file.now.files)
        (declared_from file.now.number file.now.class.constants 0 file.now.class.methods)
        code.old)) }
    ensures copied { OnOk result (sum_by copied_bytes methods.new + budget.new.left
        ≡ sum_by copied_bytes methods.old + budget.old.left) }
{
    let members = file.class().methods.as_slice();
    for (number, method) in members.iter().enumerate() {
        link_member(alloc, file, number as u16, method, code, methods, budget)?;
    }
    Ok(())
}

/// The methods of all classes, in order of the files, with the instructions that `code` has of
/// them. This is the third pass: the first instruction or handler row that names what it may not
/// refuses the files (L1, L2, L3 and L7).
pub fn link_methods(
    alloc: Global,
    scope: &Scope<'_>,
    code: Rows<Rows<Insn>>,
) -> Result<Rows<MethodInfo>, LinkError>
    ensures linked { Links (use_pass scope.now code)
        (linked_methods (scope_of scope.now) (coded_methods scope.now code)) result }
    ensures copied { IfOk result (λ methods. sum_by copied_bytes methods ≤ MOST_COPIED) }
{
    let mut methods = Rows::new(alloc);
    let mut left = Stack::first_on_top(code);
    let mut budget = Budget { left: MOST_COPIED };
    let files = scope.files().as_slice();
    for (number, class) in files.iter().enumerate() {
        let file = scope.file(number, class);
        link_class(alloc, &file, &mut left, &mut methods, &mut budget)?;
    }
    Ok(methods)
}
