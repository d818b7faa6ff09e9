//! Edges to the handlers of the rows that cover an instruction.

ghost use Rattle.std.specs.Prelude.{◌≡◌, ◌∷◌, [], Ok, true, IfOk, OnOk};
ghost use Rattle.std.specs.Option.{IfSome};
ghost use Rattle.jvm_types.specs.Types.{TypeFrame};
ghost use Rattle.jvm_types.specs.Verifying.{caught_class, catch_fault, covering};
ghost use Rattle.code_visits.specs.Analyses.{Leaves};
ghost use Rattle.code_visits.specs.TypePlan.{goes_typed, caught_acts, handled_acts};
ghost use Rattle.code_verifier.specs.Visiting.{DoRowsRest, HasLocals, HaveLocals, KeptTypeFrame};
ghost use Rattle.code_verifier.specs.Visiting.{type_acts_done, with_object_stack};

use crate::analysis::Verification;
use crate::frames::{with_object, without_stack};
use crate::meeting::stays;
use crate::resting::key_of;
use code_table::is_subclass;
use code_visits::{Nodes, Stop, go_along};
use handler_rows::HandledMethod;
use jvm_types::class_numbers::THROWABLE_CLASS;
use jvm_types::{MethodInfo, Row, TypeFrame, VRule};
use std::alloc::{AllocError, Global};

/// What the look at a row is reckoned at, in bytes, besides one for each local.
const ROW_BYTES: usize = 4;

/// The class that a handler row catches.
fn caught_class(row: &Row) -> u16
    ensures { result ≡ caught_class row.now }
{
    if row.catch_class == 0 {
        THROWABLE_CLASS
    } else {
        row.catch_class
    }
}

/// The rule that a covering row breaks at a pc, but for V5, and the pc that it names.
fn catch_fault(m: &MethodInfo, pc: u32, row: &Row) -> Option<(VRule, u32)>
    ensures { result ≡ catch_fault m.now pc row.now }
{
    if m.max_stack == 0 {
        Some((VRule::V2, pc))
    } else if !is_subclass(caught_class(row), THROWABLE_CLASS) {
        Some((VRule::V4, row.handler))
    } else {
        None
    }
}

/// Whether an edge that brings the locals of a frame, with one object of a class, changes nothing;
/// it may be told to.
fn adds_nothing(
    m: &HandledMethod<'_>,
    nodes: &Nodes<TypeFrame>,
    to: u32,
    f: &TypeFrame,
    class: u16,
) -> bool
    requires level { HaveLocals m.now nodes.now }
    requires locals { HasLocals m.now f.now }
    ensures { result ≡ true → type_acts_done m.now
        (goes_typed (to ∷ []) (with_object_stack class f.now) ∷ []) nodes.now
        ≡ Ok nodes.now }
{
    m.laid_out();
    let Some(i) = m.find(to) else {
        return false;
    };
    match nodes.frame(i) {
        Some(frame) => stays(frame, f, class),
        None => false,
    }
}

/// The edge to the handler of a row that covers a pc.
fn catch_row(
    alloc: Global,
    m: &HandledMethod<'_>,
    nodes: &mut Nodes<TypeFrame>,
    pc: u32,
    f: &TypeFrame,
    row: &Row,
) -> Result<(), Stop<VRule>>
    requires level { HaveLocals m.now nodes.old }
    requires locals { HasLocals m.now f.now }
    ensures left { Leaves (type_acts_done m.now (caught_acts m.now pc f.now row.now) nodes.old)
        nodes.new result }
    ensures level { OnOk result (HaveLocals m.now nodes.new) }
{
    nodes.spend(ROW_BYTES.saturating_add(f.first_locals().len()))?;
    if let Some((rule, at)) = catch_fault(m.method(), pc, row) {
        return Err(Stop::Refused(rule, at));
    }
    let class = caught_class(row);
    if adds_nothing(m, nodes, row.handler, f, class) {
        return Ok(());
    }
    let at_handler = with_object(alloc, f, class)?;
    let tos = [row.handler];
    go_along::<Verification, _>(alloc, m, nodes, VRule::V5, &tos, at_handler)
}

/// The edges to the handlers of the rows that cover a pc, row by row. Those of rows that begin
/// before another pc change nothing.
fn handle(
    alloc: Global,
    m: &HandledMethod<'_>,
    nodes: &mut Nodes<TypeFrame>,
    pc: u32,
    from: u32,
    f: &TypeFrame,
) -> Result<(), Stop<VRule>>
    requires level { HaveLocals m.now nodes.old }
    requires locals { HasLocals m.now f.now }
    requires rest { DoRowsRest m.now pc f.now from nodes.old m.now.rows }
    ensures left { Leaves
        (type_acts_done m.now (handled_acts m.now pc f.now (covering m.now pc)) nodes.old) nodes.new
        result }
    ensures level { OnOk result (HaveLocals m.now nodes.new) }
{
    m.laid_out();
    let mut k = 0;
    while let Some((behind, row)) = m.next_row(k, pc, from) {
        catch_row(alloc, m, nodes, pc, f, row)?;
        k = behind;
    }
    Ok(())
}

/// What is kept of a frame for the handlers of the rows that cover a pc, where there are some: all
/// but the stack.
pub fn keep_for_handlers(
    alloc: Global,
    m: &HandledMethod<'_>,
    pc: u32,
    f: &TypeFrame,
) -> Result<Option<TypeFrame>, AllocError>
    ensures { IfOk result (KeptTypeFrame m.now pc f.now) }
{
    if m.is_covered(pc) {
        Ok(Some(without_stack(alloc, f)?))
    } else {
        Ok(None)
    }
}

/// The edges to the handlers of the rows that cover the pc of the instruction of this number, with
/// what was kept of the frame there; those of rows that begin before another pc change nothing. The
/// number is noted for the locals.
pub fn handle_kept(
    alloc: Global,
    m: &HandledMethod<'_>,
    nodes: &mut Nodes<TypeFrame>,
    i: usize,
    pc: u32,
    from: u32,
    kept: &Option<TypeFrame>,
) -> Result<(), Stop<VRule>>
    requires level { HaveLocals m.now nodes.old }
    requires locals { IfSome kept.now (HasLocals m.now) }
    requires rest { IfSome kept.now (λ f. DoRowsRest m.now pc f from nodes.old m.now.rows) }
    ensures left { (f : TypeFrame) → KeptTypeFrame m.now pc f kept.now → Leaves
        (type_acts_done m.now (handled_acts m.now pc f (covering m.now pc)) nodes.old) nodes.new
        result }
    ensures level { OnOk result (HaveLocals m.now nodes.new) }
{
    match kept {
        Some(f) => {
            nodes.note(key_of(f), i)?;
            nodes.spend_steps(m.steps(pc, from, false))?;
            handle(alloc, m, nodes, pc, from, f)
        }
        None => Ok(()),
    }
}
