//! The own instructions of a section, as flags.

ghost use Rattle.std.specs.Prelude.{◌≡◌, Some, [], length, slice_get, IfOk};
ghost use Rattle.jvm_types.specs.ProgramInvariant.{IsProgram};
ghost use Rattle.jvm_types.specs.Verifying.{IsLaidOut};
ghost use Rattle.checked_program.specs.TaggedCode.{tagged_by};
ghost use Rattle.mark_reasons.specs.OwnFlags.{flag_set, flagged, is_reached, reached_before};
ghost use Rattle.mark_reasons.specs.OwnFlags.{IsBlockAnswer, IsFlagged, OwnOrElsewhere};

use checked_program::{Spot, Tags};
use code_table::IndexedMethod;
use guard_analysis::block_walk::{Walk, explore};
use guard_analysis::marking::{depth_at, fresh_walk};
use jvm_types::{MethodInfo, Op, Program, Rows};
use std::alloc::{AllocError, Global};

/// Whether some path leads to the instruction of a number.
pub fn is_reached(m: &MethodInfo, t: &Tags, i: usize) -> bool
    ensures { result ≡ is_reached m.now t.now.frames i }
{
    match m.code.get(i) {
        Some(_) => match m.targets.get(i) {
            Some(_) => match t.frames.get(i) {
                Some(Some(_)) => true,
                Some(None) => false,
                None => false,
            },
            None => false,
        },
        None => false,
    }
}

/// Of each instruction of a method, whether it is reached.
fn reached_flags(alloc: Global, m: &MethodInfo, t: &Tags) -> Result<Rows<bool>, AllocError>
    ensures { IfOk result (λ flags. flags ≡ reached_before m.now t.now.frames (length m.now.code)) }
{
    let mut flags = Rows::new(alloc);
    for i in 0..m.code.len() {
        flags.push(is_reached(m, t, i))?;
    }
    Ok(flags)
}

fn set_flag(flags: &mut Rows<bool>, i: usize)
    ensures { flags.new ≡ flag_set flags.old i }
{
    if i < flags.len() {
        flags.set(i, true);
    }
}

fn no_flags(alloc: Global, len: usize) -> Result<Rows<bool>, AllocError>
    ensures { IfOk result (λ flags. flags ≡ flagged [] len 0) }
{
    Ok(Rows::from_vec(vec![in alloc; false; len]?))
}

/// So many flags, of which those of these numbers are set.
fn flagged(alloc: Global, own: &[usize], len: usize) -> Result<Rows<bool>, AllocError>
    ensures { IfOk result (λ flags. flags ≡ flagged own.now len (length own.now)) }
{
    let mut flags = no_flags(alloc, len)?;
    for k in 0..own.len() {
        set_flag(&mut flags, own[k]);
    }
    Ok(flags)
}

/// The own instructions of the block whose `monitorenter` has this number and stands where so many
/// monitors are held.
fn inside(
    alloc: Global,
    m: &IndexedMethod<'_>,
    t: &Tags,
    depth: usize,
    enter: usize,
) -> Result<Rows<bool>, AllocError>
    ensures { IfOk result (IsFlagged m.now t.now.frames depth enter) }
{
    let len = m.method().code.len();
    let mut walk = fresh_walk(alloc, len)?;
    explore(alloc, &mut walk, m, t, depth, 1, enter)?;
    flagged(alloc, walk.own.as_slice(), len)
}

/// Those of the block that begins at the instruction of a number, if a block on this does.
fn block_at(
    alloc: Global,
    m: &IndexedMethod<'_>,
    t: &Tags,
    enter: usize,
) -> Result<Option<Rows<bool>>, AllocError>
    ensures { IfOk result (IsBlockAnswer m.now t.now.frames enter (slice_get m.now.code enter)) }
{
    match m.method().code.get(enter) {
        Some(insn) => match insn.op {
            Op::Monitorenter => match depth_at(m.method(), t, enter) {
                Some(depth) => Ok(Some(inside(alloc, m, t, depth, enter)?)),
                None => Ok(None),
            },
            _ => Ok(None),
        },
        None => Ok(None),
    }
}

/// Of each instruction of a method, whether it is an own one of its section that begins at a spot;
/// `None` where that is no section on this.
pub fn own_flags(
    alloc: Global,
    p: &Program,
    tags: &Rows<Tags>,
    method: u32,
    m: &MethodInfo,
    t: &Tags,
    spot: Spot,
) -> Result<Option<Rows<bool>>, AllocError>
    requires program { IsProgram p.now }
    requires there { slice_get p.now.methods method ≡ Some m.now }
    requires laid { IsLaidOut m.now }
    requires tagged { slice_get tags.now method ≡ Some t.now }
    ensures { IfOk result (OwnOrElsewhere p.now (tagged_by tags.now) method spot) }
{
    match spot {
        Spot::Method => Ok(Some(reached_flags(alloc, m, t)?)),
        Spot::Block(pc) => {
            let indexed = IndexedMethod::of(alloc, m)?;
            match indexed.find(pc) {
                Some(enter) => block_at(alloc, &indexed, t, enter),
                None => Ok(None),
            }
        }
    }
}
