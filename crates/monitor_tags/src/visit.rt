//! One visit of an instruction: its rules, its edges, then those to handlers.

ghost use Rattle.std.specs.Prelude.{◌≡◌, slice_get, OnOk};
ghost use Rattle.jvm_types.specs.declared.op_row.OpRow.{OpRow};
ghost use Rattle.checked_program.specs.LockTags.{TagShape};
ghost use Rattle.checked_program.specs.Tagging.{tag_acts, tag_plan};
ghost use Rattle.checked_program.specs.Visits.{acts_on};
ghost use Rattle.code_visits.specs.Waiting.{plan_node_at};
ghost use Rattle.code_visits.specs.Analyses.{AreUnderVisit, Leaves};
ghost use Rattle.monitor_tags.specs.TagVisits.{TagsKept};
ghost use Rattle.monitor_tags.specs.Visiting.{AreLong, IsGoing, TagsPrepared, does};

use crate::after::frame_after;
use crate::analysis::Tagging;
use crate::handlers::{handle_kept, keep_for_handlers};
use crate::resting::resting_pc;
use crate::rules::{enters_untagged, exits_other, leaves_held};
use checked_program::TagFrame;
use code_table::{edges, row};
use code_visits::{Nodes, Stop, go_along};
use handler_rows::HandledMethod;
use jvm_types::{Insn, OpRow, Program, SRule};
use std::alloc::Global;

/// What an instruction does with a frame: the frame that goes along its edges, the one that goes to
/// handlers where there are some, and whether the instruction breaks S4.
#[derive(Debug, Drop)]
struct Going {
    after: TagFrame,
    at_handler: Option<TagFrame>,
    leaves: bool,
}

/// What an instruction that has this row does with a frame; or the first of S1 and S2 that it
/// breaks.
fn prepare(
    alloc: Global,
    m: &HandledMethod<'_>,
    insn: &Insn,
    row: &OpRow,
    f: &TagFrame,
) -> Result<Going, Stop<SRule>>
    ensures { TagsPrepared m.now insn.now row.now f.now result }
{
    if enters_untagged(&insn.op, f.stack()) {
        return Err(Stop::Refused(SRule::S1, insn.pc));
    }
    if exits_other(&insn.op, f.stack(), f.held()) {
        return Err(Stop::Refused(SRule::S2, insn.pc));
    }
    Ok(Going {
        after: frame_after(alloc, insn, row, f)?,
        at_handler: keep_for_handlers(alloc, m, insn, f)?,
        leaves: leaves_held(m, insn, f.held()),
    })
}

/// The edges of an instruction, and S4.
fn go_on(
    alloc: Global,
    p: &Program,
    m: &HandledMethod<'_>,
    nodes: &mut Nodes<TagFrame>,
    i: usize,
    insn: &Insn,
    going: Going,
) -> Result<(), Stop<SRule>>
    requires level { AreLong m.now nodes.old }
    requires kept { AreUnderVisit (TagsKept p.now m.now) i nodes.old }
    ensures left { (r : OpRow) → (f : TagShape) → IsGoing m.now insn.now r f going
        → Leaves (does m.now (tag_acts m.now insn.now r f) nodes.old) nodes.new result }
    ensures level { OnOk result (AreLong m.now nodes.new) }
{
    let resting = resting_pc(alloc, p, m, nodes, i, insn.pc, &going.at_handler)?;
    let tos = edges(alloc, insn)?;
    go_along::<Tagging, _>(alloc, m, nodes, SRule::S3, &tos, going.after)?;
    handle_kept(alloc, m, nodes, i, insn, resting, &going.at_handler)?;
    if going.leaves {
        return Err(Stop::Refused(SRule::S4, insn.pc));
    }
    Ok(())
}

/// The visit of the instruction of this number.
pub fn visit(
    alloc: Global,
    p: &Program,
    m: &HandledMethod<'_>,
    nodes: &mut Nodes<TagFrame>,
    i: usize,
) -> Result<(), Stop<SRule>>
    requires level { AreLong m.now nodes.old }
    requires kept { AreUnderVisit (TagsKept p.now m.now) i nodes.old }
    ensures left { Leaves
        (does m.now (acts_on (tag_plan p.now m.now) i (plan_node_at nodes.old i).frame) nodes.old)
        nodes.new result }
    ensures level { OnOk result (AreLong m.now nodes.new) }
{
    let method = m.method();
    let (Some(insn), Some(target)) = (method.code.get(i), method.targets.get(i)) else {
        return Ok(());
    };
    let Some(frame) = nodes.frame(i) else {
        return Ok(());
    };
    let row = row(alloc, p, method, insn.pc, *target, &insn.op)?;
    let going = prepare(alloc, m, insn, &row, frame)?;
    go_on(alloc, p, m, nodes, i, insn, going)
}
