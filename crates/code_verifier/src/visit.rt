//! One visit of an instruction: its rules, its normal edges, then those to handlers.

ghost use Rattle.std.specs.Prelude.{◌≡◌, OnOk};
ghost use Rattle.std.specs.Option.{IfSome};
ghost use Rattle.jvm_types.specs.Types.{TypeFrame};
ghost use Rattle.checked_program.specs.Visits.{acts_on};
ghost use Rattle.code_visits.specs.Waiting.{plan_node_at};
ghost use Rattle.code_visits.specs.Analyses.{AreUnderVisit, Leaves};
ghost use Rattle.code_visits.specs.TypePlan.{gone_acts, type_plan};
ghost use Rattle.code_visits.proofs.TypeRests.{TypesRest};
ghost use Rattle.code_verifier.specs.Visiting.{HasLocals, HaveLocals, KeptTypeFrame, Prepares};
ghost use Rattle.code_verifier.specs.Visiting.{type_acts_done};

use crate::after::frame_after;
use crate::analysis::Verification;
use crate::handlers::{handle_kept, keep_for_handlers};
use crate::resting::first_to_look_at;
use crate::rules::{broken_after, broken_before};
use code_table::{edges, row};
use code_visits::{Nodes, Stop, go_along};
use handler_rows::HandledMethod;
use jvm_types::{Insn, OpRow, Program, TypeFrame, VRule};
use std::alloc::Global;

/// The edges of an instruction that leaves a frame, and keeps this of the one that it finds.
fn go_on(
    alloc: Global,
    p: &Program,
    m: &HandledMethod<'_>,
    nodes: &mut Nodes<TypeFrame>,
    i: usize,
    insn: &Insn,
    kept: &Option<TypeFrame>,
    after: TypeFrame,
) -> Result<(), Stop<VRule>>
    requires level { HaveLocals m.now nodes.old }
    requires kept { AreUnderVisit (TypesRest p.now m.now) i nodes.old }
    requires locals { IfSome kept.now (HasLocals m.now) }
    requires locals_after { HasLocals m.now after }
    ensures left { (f : TypeFrame) → KeptTypeFrame m.now insn.now.pc f kept.now → Leaves
        (type_acts_done m.now (gone_acts m.now insn.now f after) nodes.old) nodes.new result }
    ensures level { OnOk result (HaveLocals m.now nodes.new) }
{
    let from = first_to_look_at(p, m, nodes, i, insn.pc, kept);
    let tos = edges(alloc, insn)?;
    go_along::<Verification, _>(alloc, m, nodes, VRule::V5, &tos, after)?;
    if let Some(rule) = broken_after(m, insn) {
        return Err(Stop::Refused(rule, insn.pc));
    }
    handle_kept(alloc, m, nodes, i, insn.pc, from, kept)
}

/// The frame after an instruction that has this row and finds this frame, and what is kept for
/// handlers.
fn prepare(
    alloc: Global,
    m: &HandledMethod<'_>,
    insn: &Insn,
    row: &OpRow,
    f: &TypeFrame,
) -> Result<(TypeFrame, Option<TypeFrame>), Stop<VRule>>
    ensures { Prepares m.now insn.now row.now f.now result }
{
    if let Some(rule) = broken_before(m, insn, row, f) {
        return Err(Stop::Refused(rule, insn.pc));
    }
    let after = frame_after(alloc, m.method(), row, f)?;
    let kept = keep_for_handlers(alloc, m, insn.pc, f)?;
    Ok((after, kept))
}

/// The visit of the instruction of this number.
pub fn visit(
    alloc: Global,
    p: &Program,
    m: &HandledMethod<'_>,
    nodes: &mut Nodes<TypeFrame>,
    i: usize,
) -> Result<(), Stop<VRule>>
    requires level { HaveLocals m.now nodes.old }
    requires kept { AreUnderVisit (TypesRest p.now m.now) i nodes.old }
    ensures left { Leaves (type_acts_done m.now
        (acts_on (type_plan p.now m.now) i (plan_node_at nodes.old i).frame) nodes.old)
        nodes.new result }
    ensures level { OnOk result (HaveLocals m.now nodes.new) }
{
    let method = m.method();
    let (Some(insn), Some(target)) = (method.code.get(i), method.targets.get(i)) else {
        return Ok(());
    };
    let Some(frame) = nodes.frame(i) else {
        return Ok(());
    };
    let row = row(alloc, p, method, insn.pc, *target, &insn.op)?;
    let (after, kept) = prepare(alloc, m, insn, &row, frame)?;
    go_on(alloc, p, m, nodes, i, insn, &kept, after)
}
