//! Instructions that rest, to whose handlers another need not bring the same tags again.

ghost use Rattle.std.specs.Prelude.{◌≡◌, true, IfOk};
ghost use Rattle.std.specs.Option.{IfSome};
ghost use Rattle.checked_program.specs.LockTags.{same_tags, meet_tags, IsShapeBelow};
ghost use Rattle.checked_program.specs.Tagging.{tags_at_handler};
ghost use Rattle.code_visits.specs.Analyses.{AreUnderVisit};
ghost use Rattle.monitor_tags.specs.TagVisits.{TagsKept};
ghost use Rattle.monitor_tags.specs.Visiting.{DoCatchersRest};

use crate::tag_stacks::same_stacks;
use checked_program::{Tag, TagFrame, TagLocals};
use code_table::can_throw;
use code_visits::Nodes;
use handler_rows::HandledMethod;
use jvm_types::Program;
use std::alloc::{AllocError, Global};

/// The number that a key begins with, and the one that it is multiplied by for each tag: those of
/// Fowler, Noll and Vo's hash.
const KEY_BASIS: u64 = 14695981039346656037;

const KEY_PRIME: u64 = 1099511628211;

/// Where no more rows than so many cover a pc, they are all looked at.
const FEW_ROWS: u32 = 32;

fn mixed(key: u64, tag: Tag) -> u64 {
    let number = match tag {
        Tag::Untagged => 0,
        Tag::This => 1,
        Tag::At(pc) => u64::from(pc) + 2,
    };
    (key ^ number).wrapping_mul(KEY_PRIME)
}

/// A number for the locals of a frame and what is held, by which frames are found that have the
/// same.
pub fn key_of(f: &TagFrame) -> u64 {
    let mut key = KEY_BASIS;
    let locals = f.locals();
    for i in 0..locals.kept() {
        key = mixed(key, locals.get(i).unwrap_or(Tag::Untagged));
    }
    let held = f.held();
    for place in 0..held.len() {
        key = mixed(key, held.get(place).copied().unwrap_or(Tag::Untagged));
    }
    key
}

/// Whether more than a few rows cover a pc. No clause says how many: either way of going over them
/// comes to the same.
fn is_crowded(m: &HandledMethod<'_>, pc: u32) -> bool {
    let mut k = 0;
    for _row in 0..FEW_ROWS {
        match m.next_row(k, pc, 0) {
            Some((behind, _)) => k = behind,
            None => return false,
        }
    }
    true
}

/// Whether some locals stay as they are where they meet others.
fn locals_stay(alloc: Global, locals: &TagLocals, other: &TagLocals) -> Result<bool, AllocError>
    ensures { IfOk result
        (λ stay. stay ≡ true → same_tags locals.now (meet_tags locals.now other.now) ≡ true) }
{
    let mut met = locals.copy(alloc)?;
    Ok(!met.meet(other))
}

/// Whether a frame is below the one that another leaves at handlers.
fn is_below(alloc: Global, f: &TagFrame, other: &TagFrame) -> Result<bool, AllocError>
    ensures { IfOk result
        (λ below. below ≡ true → IsShapeBelow f.now (tags_at_handler other.now)) }
{
    if f.stack().len() == 0 {
        return Ok(false);
    }
    if !same_stacks(f.held(), other.held()) {
        return Ok(false);
    }
    locals_stay(alloc, other.locals(), f.locals())
}

/// The pc of the instruction of this number, where that rests, can throw, and left at its handlers
/// what a frame is below: the frame changes nothing there.
fn rests_at(
    alloc: Global,
    p: &Program,
    m: &HandledMethod<'_>,
    nodes: &Nodes<TagFrame>,
    i: usize,
    j: usize,
    f: &TagFrame,
) -> Result<Option<u32>, AllocError>
    requires kept { AreUnderVisit (TagsKept p.now m.now) i nodes.now }
    ensures { IfOk result
        (λ found. IfSome found (λ at. DoCatchersRest m.now at f.now nodes.now)) }
{
    if i == j || !nodes.rests(j) {
        return Ok(None);
    }
    let method = m.method();
    let (Some(other), Some(_target)) = (method.code.get(j), method.targets.get(j)) else {
        return Ok(None);
    };
    let Some(frame) = nodes.frame(j) else {
        return Ok(None);
    };
    if !can_throw(&other.op) {
        return Ok(None);
    }
    if is_below(alloc, f, frame)? {
        Ok(Some(other.pc))
    } else {
        Ok(None)
    }
}

/// A pc whose handlers have frames that what was kept of another is below, where one was noted and
/// many rows cover the pc of the instruction of this number.
pub fn resting_pc(
    alloc: Global,
    p: &Program,
    m: &HandledMethod<'_>,
    nodes: &Nodes<TagFrame>,
    i: usize,
    pc: u32,
    kept: &Option<TagFrame>,
) -> Result<Option<u32>, AllocError>
    requires kept { AreUnderVisit (TagsKept p.now m.now) i nodes.now }
    ensures { IfOk result (λ found. IfSome kept.now
        (λ f. IfSome found (λ at. DoCatchersRest m.now at f nodes.now))) }
{
    let Some(f) = kept else {
        return Ok(None);
    };
    if !is_crowded(m, pc) {
        return Ok(None);
    }
    match nodes.noted(key_of(f)) {
        Some(j) => rests_at(alloc, p, m, nodes, i, j, f),
        None => Ok(None),
    }
}
