//! The edges of an instruction, to each of which what has `this` is compared with what stands
//! there.

ghost use Rattle.std.specs.Prelude.{◌≡◌, IfOk};
ghost use Rattle.std.specs.Option.{option_copied};
ghost use Rattle.jvm_types.specs.Verifying.{covers, edges};
ghost use Rattle.code_table.specs.PcTables.{number_at};
ghost use Rattle.frozen_classes.specs.KeptThis.{catches_well, caught_well, joins_all};
ghost use Rattle.frozen_classes.specs.KeptThis.{keeps_places, passes_at, passes_test, places_after};
ghost use Rattle.frozen_classes.specs.KeptThis.{reached_frame_at};

use crate::places::{Places, places_after, places_caught};
use checked_program::{TagFrame, Tags};
use code_table::{IndexedMethod, can_throw, edges};
use code_visits::Budget;
use jvm_types::{Insn, MethodInfo, OpRow, Row};
use std::alloc::{AllocError, Global};

/// What finding the frame at the end of an edge is reckoned at, in looks at a place.
const EDGE_LOOKS: usize = 8;

/// How many handler rows are reckoned at one look at a place, where it is told which cover a pc.
const ROWS_IN_LOOK: usize = 4;

/// The tags of the instruction of a number, where it is reached.
pub(crate) fn reached_tags<'a>(m: &MethodInfo, t: &'a Tags, j: usize) -> Option<&'a TagFrame>
    ensures { option_copied result ≡ reached_frame_at m.now t.now.frames j }
{
    match m.code.get(j) {
        Some(_) => match m.targets.get(j) {
            Some(_) => match t.frames.get(j) {
                Some(Some(g)) => Some(g),
                Some(None) => None,
                None => None,
            },
            None => None,
        },
        None => None,
    }
}

fn keeps_one(places: &Places, m: &MethodInfo, t: &Tags, j: usize) -> bool
    ensures { result
        ≡ passes_test (keeps_places places.now) (reached_frame_at m.now t.now.frames j) }
{
    match reached_tags(m, t, j) {
        Some(g) => places.keep(g),
        None => true,
    }
}

/// Whether some places have `this` at a pc, where that is reached.
fn keeps_pc(
    budget: &mut Budget,
    places: &Places,
    m: &IndexedMethod<'_>,
    t: &Tags,
    pc: u32,
) -> Result<bool, AllocError>
    ensures { IfOk result (λ b.
        b ≡ passes_at m.now t.now.frames (keeps_places places.now) (number_at m.now.code pc)) }
{
    budget.spend(EDGE_LOOKS.saturating_add(places.count()))?;
    match m.find(pc) {
        Some(j) => Ok(keeps_one(places, m.method(), t, j)),
        None => Ok(true),
    }
}

fn joins_pcs(
    budget: &mut Budget,
    places: &Places,
    m: &IndexedMethod<'_>,
    t: &Tags,
    pcs: &[u32],
) -> Result<bool, AllocError>
    ensures { IfOk result (λ b. b ≡ joins_all m.now t.now.frames places.now pcs.now) }
{
    for pc in pcs {
        if !keeps_pc(budget, places, m, t, *pc)? {
            return Ok(false);
        }
    }
    Ok(true)
}

/// Whether the instructions that an instruction goes on at have `this` where it leaves it.
pub(crate) fn joins_all(
    alloc: Global,
    budget: &mut Budget,
    row: &OpRow,
    f: &TagFrame,
    m: &IndexedMethod<'_>,
    t: &Tags,
    insn: &Insn,
) -> Result<bool, AllocError>
    ensures { IfOk result
        (λ b. b ≡ joins_all m.now t.now.frames (places_after row.now f.now) (edges insn.now)) }
{
    let places = places_after(alloc, budget, row, f)?;
    let pcs = edges(alloc, insn)?;
    joins_pcs(budget, &places, m, t, pcs.as_slice())
}

/// Whether a handler row covers a pc (JVMS 2.10).
fn covers(pc: u32, row: &Row) -> bool
    ensures { result ≡ covers pc row.now }
{
    row.start <= pc && pc < row.end
}

fn catches_well(
    budget: &mut Budget,
    places: &Places,
    m: &IndexedMethod<'_>,
    t: &Tags,
    pc: u32,
    rows: &[Row],
) -> Result<bool, AllocError>
    ensures { IfOk result (λ b. b ≡ catches_well m.now t.now.frames places.now pc rows.now) }
{
    budget.spend(rows.len() / ROWS_IN_LOOK)?;
    for row in rows {
        if covers(pc, row) {
            if !keeps_pc(budget, places, m, t, row.handler)? {
                return Ok(false);
            }
            if row.catch_class == 0 {
                return Ok(true);
            }
        }
    }
    Ok(true)
}

/// Whether the handlers that an exception of an instruction may go to have `this` where it is.
pub(crate) fn caught_well(
    alloc: Global,
    budget: &mut Budget,
    f: &TagFrame,
    m: &IndexedMethod<'_>,
    t: &Tags,
    insn: &Insn,
) -> Result<bool, AllocError>
    ensures { IfOk result (λ b. b ≡ caught_well m.now t.now.frames f.now insn.now) }
{
    if can_throw(&insn.op) {
        let places = places_caught(alloc, budget, f)?;
        catches_well(budget, &places, m, t, insn.pc, m.method().rows.as_slice())
    } else {
        Ok(true)
    }
}
