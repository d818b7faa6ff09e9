//! The own instructions of a block, in one walk along the edges from its start.

ghost use Rattle.std.specs.Prelude.{◌≡◌, ◌<◌, ◌≤◌, ◌==◌, ℕ, [], ◌++◌, length, map, slice_get};
ghost use Rattle.std.specs.Prelude.{slice_index, IfOk, OnOk};
ghost use Rattle.std.specs.List.{filter_map};
ghost use Rattle.jvm_types.specs.Verifying.{covers};
ghost use Rattle.code_table.specs.PcTables.{number_at};
ghost use Rattle.guard_analysis.specs.BlockWalks.{all_visited, catch_pcs, deep_at, is_deep};
ghost use Rattle.guard_analysis.specs.BlockWalks.{handler_pcs, way_pcs, ways_at, ways_from};
ghost use Rattle.guard_analysis.specs.BlockWalks.{walk_visited, IsExplored, Walked};

use checked_program::Tags;
use code_table::{IndexedMethod, can_throw, edges};
use jvm_types::{Insn, MethodInfo, Row, Rows};
use std::alloc::{AllocError, Global};

/// The own instructions that a walk has found, in the order in which it found them, and for each
/// instruction of the method the stamp of the last walk that came to it.
#[derive(Debug, Drop)]
pub struct Walk {
    pub seen: Rows<usize>,
    pub own: Rows<usize>,
}

/// Whether a handler row covers a pc (JVMS 2.10).
pub(crate) fn covers(pc: u32, row: &Row) -> bool
    ensures { result ≡ covers pc row.now }
{
    row.start <= pc && pc < row.end
}

/// The pcs of the handlers that an exception at a pc may go to.
fn handler_pcs(alloc: Global, pc: u32, rows: &[Row]) -> Result<Vec<u32>, AllocError>
    ensures { IfOk result (λ v. v.items ≡ handler_pcs pc rows.now) }
{
    let mut pcs = Vec::new(alloc);
    for row in rows {
        if covers(pc, row) {
            pcs.push(row.handler)?;
            if row.catch_class == 0 {
                return Ok(pcs);
            }
        }
    }
    Ok(pcs)
}

fn catch_pcs(alloc: Global, m: &MethodInfo, insn: &Insn) -> Result<Vec<u32>, AllocError>
    ensures { IfOk result (λ v. v.items ≡ catch_pcs m.now insn.now) }
{
    if can_throw(&insn.op) {
        handler_pcs(alloc, insn.pc, m.rows.as_slice())
    } else {
        Ok(Vec::new(alloc))
    }
}

/// The pcs that an instruction leads to, those of handlers last.
fn way_pcs(alloc: Global, m: &MethodInfo, insn: &Insn) -> Result<Vec<u32>, AllocError>
    ensures { IfOk result (λ v. v.items ≡ way_pcs m.now insn.now) }
{
    let mut pcs = edges(alloc, insn)?;
    let caught = catch_pcs(alloc, m, insn)?;
    pcs.extend_from_slice(caught.as_slice())?;
    Ok(pcs)
}

fn numbers(alloc: Global, m: &IndexedMethod<'_>, pcs: &[u32]) -> Result<Vec<usize>, AllocError>
    ensures { IfOk result (λ v. v.items ≡ filter_map (λ pc. number_at m.now.code pc) pcs.now) }
{
    let mut found = Vec::new(alloc);
    for pc in pcs {
        match m.find(*pc) {
            Some(i) => found.push(i)?,
            None => {}
        }
    }
    Ok(found)
}

/// The numbers of the instructions that the one of a number leads to.
pub fn ways_from(alloc: Global, m: &IndexedMethod<'_>, i: usize) -> Result<Vec<usize>, AllocError>
    ensures { IfOk result (λ v. v.items ≡ ways_from m.now i) }
{
    let method = m.method();
    match method.code.get(i) {
        Some(insn) => {
            let pcs = way_pcs(alloc, method, insn)?;
            numbers(alloc, m, pcs.as_slice())
        }
        None => Ok(Vec::new(alloc)),
    }
}

fn is_deep(m: &MethodInfo, tags: &Tags, depth: usize, j: usize) -> bool
    ensures { result ≡ is_deep m.now tags.now.frames depth j }
{
    match m.code.get(j) {
        Some(_) => match m.targets.get(j) {
            Some(_) => match tags.frames.get(j) {
                Some(Some(f)) => depth < f.held().len(),
                Some(None) => false,
                None => false,
            },
            None => false,
        },
        None => false,
    }
}

fn has_stamp(seen: &Rows<usize>, j: usize, stamp: usize) -> bool
    requires { j < length seen.now }
    ensures { result ≡ (slice_index seen.now j == stamp) }
{
    match seen.get(j) {
        Some(s) => *s == stamp,
        None => unreachable!(),
    }
}

fn visit(walk: &mut Walk, deep: bool, stamp: usize, j: usize) -> Result<(), AllocError>
    ensures { OnOk result (walk.new ≡ walk_visited deep stamp walk.old j) }
{
    if deep && j < walk.seen.len() && !has_stamp(&walk.seen, j, stamp) {
        walk.own.push(j)?;
        walk.seen.set(j, stamp);
    }
    Ok(())
}

fn visit_each(
    walk: &mut Walk,
    m: &MethodInfo,
    tags: &Tags,
    depth: usize,
    stamp: usize,
    ways: &[usize],
) -> Result<(), AllocError>
    ensures { OnOk result
        (walk.new ≡ all_visited m.now tags.now.frames depth stamp ways.now walk.old) }
{
    for j in ways {
        visit(walk, is_deep(m, tags, depth, *j), stamp, *j)?;
    }
    Ok(())
}

/// Visits what the instruction of a number leads to.
fn visit_ways(
    alloc: Global,
    walk: &mut Walk,
    m: &IndexedMethod<'_>,
    tags: &Tags,
    depth: usize,
    stamp: usize,
    i: usize,
) -> Result<(), AllocError>
    ensures { OnOk result
        (walk.new ≡ all_visited m.now tags.now.frames depth stamp (ways_from m.now i) walk.old) }
{
    let ways = ways_from(alloc, m, i)?;
    visit_each(walk, m.method(), tags, depth, stamp, ways.as_slice())
}

fn found_at(own: &Rows<usize>, k: usize) -> usize
    requires { k < length own.now }
    ensures { result ≡ slice_index own.now k }
{
    match own.get(k) {
        Some(i) => *i,
        None => unreachable!(),
    }
}

/// Finds the own instructions of the block whose `monitorenter` has this number and stands where so
/// many monitors are held. No walk before had this stamp.
pub fn explore(
    alloc: Global,
    walk: &mut Walk,
    m: &IndexedMethod<'_>,
    tags: &Tags,
    depth: usize,
    stamp: usize,
    enter: usize,
) -> Result<(), AllocError>
    requires long { length walk.old.seen ≡ length m.now.code }
    requires low { (j : ℕ) → slice_index walk.old.seen j < stamp }
    ensures { OnOk result (IsExplored m.now tags.now.frames depth stamp enter walk.new) }
{
    walk.own = Rows::new(alloc);
    visit_ways(alloc, walk, m, tags, depth, stamp, enter)?;
    let mut k = 0;
    while k < walk.own.len() {
        let i = found_at(&walk.own, k);
        visit_ways(alloc, walk, m, tags, depth, stamp, i)?;
        k += 1;
    }
    Ok(())
}
