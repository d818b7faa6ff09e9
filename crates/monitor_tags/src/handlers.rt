//! Edges to the handlers that an exception of an instruction may go to.

ghost use Rattle.std.specs.Prelude.{◌≡◌, ◌&&◌, true, [], ◌∷◌, IfOk, OnOk};
ghost use Rattle.std.specs.List.{list_any};
ghost use Rattle.std.specs.Option.{IfSome};
ghost use Rattle.jvm_types.specs.CodeTable.{can_throw};
ghost use Rattle.jvm_types.specs.Verifying.{covers, covering};
ghost use Rattle.checked_program.specs.LockTags.{TagShape, IsShapeBelow};
ghost use Rattle.checked_program.specs.Tagging.{catches_all, until_all, catchers};
ghost use Rattle.checked_program.specs.Tagging.{tag_meeting, tags_at_handler};
ghost use Rattle.laws_sections.proofs.TagOrder.{tag_order};
ghost use Rattle.laws_sections.proofs.VisitedNodes.{LandsOn};
ghost use Rattle.code_visits.specs.Analyses.{Leaves};
ghost use Rattle.monitor_tags.specs.Visiting.{AreLong, DoCatchersRest, KeptTagShape, does};
ghost use Rattle.monitor_tags.specs.Visiting.{goes_along, to_handlers, turn_acts};

use crate::after::frame_at_handler;
use crate::analysis::Tagging;
use crate::resting::key_of;
use crate::rules::catches_all;
use checked_program::TagFrame;
use code_table::can_throw;
use code_visits::{Nodes, Stop, go_to};
use handler_rows::{HandledMethod, covers};
use jvm_types::{Insn, Row, SRule};
use std::alloc::{AllocError, Global};

/// How many handler rows are reckoned at one byte where each is looked at.
const ROWS_IN_BYTE: usize = 4;

/// How many times the rows that cover an instruction are searched for: to tell whether many do, and
/// to bring its frame to their handlers.
const SEARCHES: usize = 2;

/// Whether an exception of an instruction may go to some handler.
fn has_catchers(m: &HandledMethod<'_>, insn: &Insn) -> bool
    ensures { result ≡ (can_throw insn.now.op && list_any (covers insn.now.pc) m.now.rows) }
{
    can_throw(&insn.op) && m.is_covered(insn.pc)
}

/// The frame at the handlers that an exception of an instruction may go to, where there are some.
pub fn keep_for_handlers(
    alloc: Global,
    m: &HandledMethod<'_>,
    insn: &Insn,
    f: &TagFrame,
) -> Result<Option<TagFrame>, AllocError>
    ensures { IfOk result (KeptTagShape m.now insn.now f.now) }
{
    if has_catchers(m, insn) {
        Ok(Some(frame_at_handler(alloc, f)?))
    } else {
        Ok(None)
    }
}

/// A frame goes to the handlers of the rows that cover a pc, up to the first that catches all.
fn handle(
    alloc: Global,
    m: &HandledMethod<'_>,
    nodes: &mut Nodes<TagFrame>,
    pc: u32,
    f: &TagFrame,
) -> Result<(), Stop<SRule>>
    requires level { AreLong m.now nodes.old }
    ensures left { Leaves (does m.now (to_handlers f.now (until_all (covering m.now pc))) nodes.old)
        nodes.new result }
    ensures level { OnOk result (AreLong m.now nodes.new) }
{
    let mut k = 0;
    while let Some((behind, row)) = m.next_row(k, pc, 0) {
        go_to::<Tagging, _>(alloc, m, nodes, SRule::S3, row.handler, f)?;
        if catches_all(row) {
            return Ok(());
        }
        k = behind;
    }
    Ok(())
}

/// A frame goes to the handler at a pc, unless it rests there.
fn reach(
    alloc: Global,
    m: &HandledMethod<'_>,
    nodes: &mut Nodes<TagFrame>,
    f: &TagFrame,
    rests: bool,
    to: u32,
) -> Result<(), Stop<SRule>>
    requires level { AreLong m.now nodes.old }
    requires rest { rests ≡ true
        → LandsOn tag_meeting IsShapeBelow tag_order m.now.code nodes.old f.now to }
    ensures left { Leaves (does m.now (goes_along (to ∷ []) f.now ∷ []) nodes.old) nodes.new
        result }
    ensures level { OnOk result (AreLong m.now nodes.new) }
{
    m.laid_out();
    if rests {
        return Ok(());
    }
    go_to::<Tagging, _>(alloc, m, nodes, SRule::S3, to, f)
}

/// A frame goes to the handler of a row where that covers a pc, unless it rests there; answers
/// whether the row covers the pc and catches all.
fn turn(
    alloc: Global,
    m: &HandledMethod<'_>,
    nodes: &mut Nodes<TagFrame>,
    pc: u32,
    f: &TagFrame,
    rests: bool,
    row: &Row,
) -> Result<bool, Stop<SRule>>
    requires level { AreLong m.now nodes.old }
    requires rest { rests ≡ true
        → LandsOn tag_meeting IsShapeBelow tag_order m.now.code nodes.old f.now row.now.handler }
    ensures left { Leaves (does m.now (turn_acts pc f.now row.now) nodes.old) nodes.new result }
    ensures level { OnOk result (AreLong m.now nodes.new) }
    ensures ends { IfOk result (λ ends. ends ≡ (covers pc row.now && catches_all row.now)) }
{
    if !covers(pc, row) {
        return Ok(false);
    }
    reach(alloc, m, nodes, f, rests, row.handler)?;
    Ok(catches_all(row))
}

/// A frame goes to the handlers of the rows that cover a pc, up to the first that catches all, but
/// to none to which an exception at another pc goes, as long as that goes on: they rest.
fn handle_beside(
    alloc: Global,
    m: &HandledMethod<'_>,
    nodes: &mut Nodes<TagFrame>,
    pc: u32,
    at: u32,
    f: &TagFrame,
) -> Result<(), Stop<SRule>>
    requires level { AreLong m.now nodes.old }
    requires rest { DoCatchersRest m.now at f.now nodes.old }
    ensures left { Leaves (does m.now (to_handlers f.now (until_all (covering m.now pc))) nodes.old)
        nodes.new result }
    ensures level { OnOk result (AreLong m.now nodes.new) }
{
    let rows = m.method().rows.as_slice();
    nodes.spend(rows.len() / ROWS_IN_BYTE)?;
    let mut rests = true;
    for row in rows {
        let rests_here = rests & covers(at, row);
        if turn(alloc, m, nodes, pc, f, rests_here, row)? {
            return Ok(());
        }
        rests &= !(rests_here & catches_all(row));
    }
    Ok(())
}

/// What was kept of a frame goes to the handlers that an exception of the instruction of a number
/// may go to, but to those where it rests, as an exception at another pc brought it there. The
/// number is noted for the frame.
pub fn handle_kept(
    alloc: Global,
    m: &HandledMethod<'_>,
    nodes: &mut Nodes<TagFrame>,
    i: usize,
    insn: &Insn,
    resting: Option<u32>,
    kept: &Option<TagFrame>,
) -> Result<(), Stop<SRule>>
    requires level { AreLong m.now nodes.old }
    requires rest { IfSome kept.now
        (λ f. IfSome resting (λ at. DoCatchersRest m.now at f nodes.old)) }
    ensures left { (f : TagShape) → KeptTagShape m.now insn.now f kept.now → Leaves
        (does m.now (to_handlers (tags_at_handler f) (catchers m.now insn.now)) nodes.old)
        nodes.new result }
    ensures level { OnOk result (AreLong m.now nodes.new) }
{
    let Some(f) = kept else {
        return Ok(());
    };
    nodes.note(key_of(f), i)?;
    nodes.spend_steps(m.steps(insn.pc, 0, false).saturating_mul(SEARCHES))?;
    match resting {
        Some(at) => handle_beside(alloc, m, nodes, insn.pc, at, f),
        None => handle(alloc, m, nodes, insn.pc, f),
    }
}
