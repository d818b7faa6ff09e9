//! What counts against a field whose arrays never leave their objects, should it be one: the first
//! instruction of a method that uses the field, or an array that was read from it, otherwise.

ghost use Rattle.std.specs.Prelude.{◌≡◌, slice_get, IfOk};
ghost use Rattle.std.specs.Option.{IfNone};
ghost use Rattle.checked_program.specs.TaggedCode.{row_of};
ghost use Rattle.checked_program.specs.Visits.{HasFrames};
ghost use Rattle.jvm_types.specs.Verifying.{IsLaidOut};
ghost use Rattle.guard_analysis.specs.ArrayFaults.{against_if, against_in, array_named, ill_used};
ghost use Rattle.guard_analysis.specs.ArrayFaults.{IsFirstAgainst, IsFirstBy, IsReadFrom};
ghost use Rattle.guard_analysis.specs.ColourVisits.{colour_plan};
ghost use Rattle.guard_analysis.specs.OwnedFound.{branched_flags, insn_out, out_at};
ghost use Rattle.guard_analysis.specs.OwnedFound.{read_colour};

use crate::array_uses::{branched_to, check_takes, check_use, compare_edges, read_colour};
use crate::callees::flag_at;
use crate::colouring::{Colour, is_array_field};
use crate::field_uses::{no_flags, writes_guarded};
use crate::owned_arrays::colour_frames;
use checked_program::{TagFrame, Tags};
use code_table::row;
use handler_rows::HandledMethod;
use jvm_types::{Insn, MethodInfo, Op, OpRow, Program, Rows, Stack, Target};
use std::alloc::{AllocError, Global};

/// What an instruction does that a field has not whose arrays never leave their objects.
#[derive(Clone, Copy, Debug, PartialEq, Eq)]
pub enum Misuse {
    /// It reads the field of an object that is not known to be `this`.
    Read,
    /// It writes the field, not known to be on `this` and under its lock.
    Written,
    /// It stores an array in the field that is not known to be new.
    NotNew,
    /// It writes an element, not known to be under the lock.
    Stored,
    /// It takes an array of the field for more than its elements and its length.
    Taken,
    /// It leads to where another path brings something else than an array of the field.
    Meets,
}

/// An instruction that counts against a field, by its number in its method.
#[derive(Clone, Copy, Debug, PartialEq, Eq)]
pub struct Against {
    pub at: usize,
    pub misuse: Misuse,
}

fn ill_used(m: &MethodInfo, op: &Op, tags: &TagFrame) -> Misuse
    ensures { result ≡ ill_used m.now op.now tags.now }
{
    match op {
        Op::Getfield(_) => Misuse::Read,
        Op::Putfield(_) => {
            if writes_guarded(m, tags) {
                Misuse::NotNew
            } else {
                Misuse::Written
            }
        }
        _ => Misuse::Stored,
    }
}

/// What an instruction does that puts a field out, of which none before it did. Where it does
/// nothing such, the fields that it puts out are noted.
fn against_in(
    alloc: Global,
    p: &Program,
    m: &HandledMethod<'_>,
    branched: &[bool],
    frames: &Rows<Option<Stack<Colour>>>,
    i: usize,
    insn: &Insn,
    target: Target,
    row: &OpRow,
    tags: &TagFrame,
    stack: &Stack<Colour>,
    outs: &mut Rows<bool>,
    field: usize,
) -> Result<Option<Misuse>, AllocError>
    ensures found { IfOk result (λ found. found ≡ against_in p.now m.now branched.now frames.now i
        insn.now target row.now tags.now stack.now outs.old field) }
    ensures noted { IfOk result (λ found. IfNone found (outs.new ≡ insn_out p.now m.now
        branched.now frames.now i insn.now target row.now tags.now stack.now outs.old)) }
{
    let method = m.method();
    check_use(p, outs, method, branched, i, &insn.op, target, tags, stack);
    if flag_at(outs.as_slice(), field) {
        return Ok(Some(ill_used(method, &insn.op, tags)));
    }
    check_takes(outs, &insn.op, row.takes.len(), stack);
    if flag_at(outs.as_slice(), field) {
        return Ok(Some(Misuse::Taken));
    }
    compare_edges(alloc, p, m, outs, frames, insn, target, row, stack)?;
    if flag_at(outs.as_slice(), field) {
        Ok(Some(Misuse::Meets))
    } else {
        Ok(None)
    }
}

/// The same of the instruction of a number, where it is reached.
fn against_at(
    alloc: Global,
    p: &Program,
    m: &HandledMethod<'_>,
    tags: &Tags,
    branched: &[bool],
    frames: &Rows<Option<Stack<Colour>>>,
    i: usize,
    outs: &mut Rows<bool>,
    field: usize,
) -> Result<Option<Misuse>, AllocError>
    ensures found { IfOk result (λ found. found ≡ against_if p.now m.now branched.now frames.now i
        (slice_get m.now.code i) (slice_get m.now.targets i) (slice_get tags.now.frames i)
        (slice_get frames.now i) outs.old field) }
    ensures noted { IfOk result (λ found. IfNone found (outs.new ≡ out_at p.now m.now branched.now
        frames.now i (slice_get m.now.code i) (slice_get m.now.targets i)
        (slice_get tags.now.frames i) (slice_get frames.now i) outs.old)) }
{
    let method = m.method();
    let (Some(insn), Some(target)) = (method.code.get(i), method.targets.get(i)) else {
        return Ok(None);
    };
    let (Some(Some(f)), Some(Some(stack))) = (tags.frames.get(i), frames.get(i)) else {
        return Ok(None);
    };
    let row = row(alloc, p, method, insn.pc, *target, &insn.op)?;
    against_in(
        alloc, p, m, branched, frames, i, insn, *target, &row, f, stack, outs, field,
    )
}

/// The first instruction of a method that counts against a field, by the first frames of colours.
fn first_by(
    alloc: Global,
    p: &Program,
    m: &HandledMethod<'_>,
    tags: &Tags,
    frames: &Rows<Option<Stack<Colour>>>,
    field: usize,
) -> Result<Option<Against>, AllocError>
    ensures { IfOk result (IsFirstBy p.now m.now tags.now.frames frames.now field) }
{
    let branched = branched_to(alloc, m)?;
    let mut outs = no_flags(alloc, p.fields.len())?;
    for i in 0..m.method().code.len() {
        let found = against_at(
            alloc,
            p,
            m,
            tags,
            branched.as_slice(),
            frames,
            i,
            &mut outs,
            field,
        )?;
        if let Some(misuse) = found {
            return Ok(Some(Against { at: i, misuse }));
        }
    }
    Ok(None)
}

/// The first instruction of a method that counts against a field as one whose arrays never leave
/// their objects, and what it does. `tags` are the lock tags of the method. The error is that
/// memory was refused.
pub fn first_against(
    alloc: Global,
    p: &Program,
    method: &MethodInfo,
    tags: &Tags,
    field: usize,
) -> Result<Option<Against>, AllocError>
    requires { IsLaidOut method.now }
    ensures { IfOk result (IsFirstAgainst p.now method.now tags.now.frames field) }
{
    let m = HandledMethod::of(alloc, method)?;
    let frames = colour_frames(alloc, p, method)?;
    first_by(alloc, p, &m, tags, &frames, field)
}

/// The field that a colour names, if its arrays may stay in its object by its flags and its type.
fn array_named(p: &Program, colour: Colour) -> Option<u32>
    ensures { result ≡ array_named p.now colour }
{
    match colour {
        Colour::Of(field) => {
            if is_array_field(p, field) {
                Some(field)
            } else {
                None
            }
        }
        Colour::Plain => None,
    }
}

/// The private `int[]` field of an object that the array was read from of which the instruction of
/// a number reads an element, as the visits of its method tell it. The error is that memory was
/// refused.
pub fn read_from(
    alloc: Global,
    p: &Program,
    method: &MethodInfo,
    i: usize,
) -> Result<Option<u32>, AllocError>
    requires { IsLaidOut method.now }
    ensures { IfOk result (IsReadFrom p.now method.now i) }
{
    let frames = colour_frames(alloc, p, method)?;
    Ok(array_named(p, read_colour(method.code.get(i), frames.get(i))))
}
