//! What a method does with the arrays that it reads from fields: each use that an owned array has
//! not puts out the field that the array was read from.

ghost use Rattle.std.specs.Prelude.{◌≡◌, ◌∷◌, [], if◌then◌else◌, length, slice_get, IfOk, OnOk};
ghost use Rattle.std.specs.Option.{option_copied};
ghost use Rattle.checked_program.specs.TaggedCode.{row_of};
ghost use Rattle.jvm_types.specs.Verifying.{covering};
ghost use Rattle.checked_program.specs.FrozenPlaces.{is_field_of};
ghost use Rattle.checked_program.specs.OwnedArrays.{may_take_array};
ghost use Rattle.checked_program.specs.Tagging.{until_all};
ghost use Rattle.guard_analysis.specs.ColourVisits.{colour_at};
ghost use Rattle.guard_analysis.specs.FieldUses.{field_noted};
ghost use Rattle.guard_analysis.specs.OwnedFound.{branched_flags, branches_set, class_out};
ghost use Rattle.guard_analysis.specs.OwnedFound.{colour_out};
ghost use Rattle.guard_analysis.specs.OwnedFound.{compared, compared_at, compared_each};
ghost use Rattle.guard_analysis.specs.OwnedFound.{compared_with, differ_out, edges_out};
ghost use Rattle.guard_analysis.specs.OwnedFound.{get_out, handlers_of, insn_out, is_newarray};
ghost use Rattle.guard_analysis.specs.OwnedFound.{method_out, out_at, put_out, read_colour};
ghost use Rattle.guard_analysis.specs.OwnedFound.{read_colours_before, store_out, stores_new};
ghost use Rattle.guard_analysis.specs.OwnedFound.{taken_before, targets_set, used_out};
ghost use Rattle.guard_analysis.specs.declared.colouring.Colour.TheVariants.{Plain as plain};

use crate::callees::flag_at;
use crate::colouring::{Colour, colours_after, is_array_field, is_same};
use crate::field_uses::{no_flags, note, stands_guarded, writes_guarded};
use crate::tag_reading::{is_this, stack_tag};
use checked_program::{TagFrame, Tags};
use code_table::{branches_to, can_throw, edges, row};
use handler_rows::HandledMethod;
use jvm_types::{Insn, MethodInfo, Op, OpRow, Program, Rows, Stack, Target};
use std::alloc::{AllocError, Global};

// Fields that are out.

fn colour_out(outs: &mut Rows<bool>, colour: Colour)
    ensures { outs.new ≡ colour_out outs.old colour }
{
    match colour {
        Colour::Of(field) => note(outs, Some(field)),
        Colour::Plain => {}
    }
}

fn is_field_of(p: &Program, class: u16, field: usize) -> bool
    ensures { result ≡ is_field_of class (slice_get p.now.fields field) }
{
    match p.fields.get(field) {
        Some(info) => info.class == class,
        None => false,
    }
}

/// No field of a class has a colouring.
fn class_out(p: &Program, class: u16, outs: &mut Rows<bool>)
    ensures { outs.new ≡ class_out p.now class outs.old }
{
    for field in 0..outs.len() {
        if is_field_of(p, class, field) {
            outs.set(field, true);
        }
    }
}

fn colour_at(stack: &Stack<Colour>, place: usize) -> Colour
    ensures { result ≡ colour_at stack.now place }
{
    match stack.get(place) {
        Some(colour) => *colour,
        None => Colour::Plain,
    }
}

// Two frames.

/// The fields that two colours name, where they differ.
fn differ_out(outs: &mut Rows<bool>, colour: Colour, other: Colour)
    ensures { outs.new ≡ differ_out outs.old colour other }
{
    if !is_same(colour, other) {
        colour_out(outs, colour);
        colour_out(outs, other);
    }
}

/// The fields that two frames name at places where they differ, in a method of a class.
fn compare(
    p: &Program,
    class: u16,
    outs: &mut Rows<bool>,
    brought: &Stack<Colour>,
    there: &Stack<Colour>,
)
    ensures { outs.new ≡ compared p.now class outs.old brought.now there.now }
{
    if brought.len() != there.len() {
        class_out(p, class, outs);
        return;
    }
    for place in 0..brought.len() {
        differ_out(outs, colour_at(brought, place), colour_at(there, place));
    }
}

fn compare_with(
    p: &Program,
    class: u16,
    outs: &mut Rows<bool>,
    brought: &Stack<Colour>,
    there: Option<&Option<Stack<Colour>>>,
)
    ensures { outs.new
        ≡ compared_with p.now class outs.old brought.now (option_copied there.entry) }
{
    match there {
        Some(Some(frame)) => compare(p, class, outs, brought, frame),
        Some(None) => {}
        None => {}
    }
}

/// What an edge brings to a pc, with what stands there.
fn compare_at(
    p: &Program,
    m: &HandledMethod<'_>,
    outs: &mut Rows<bool>,
    frames: &Rows<Option<Stack<Colour>>>,
    to: u32,
    brought: &Stack<Colour>,
)
    ensures { outs.new ≡ compared_at p.now m.now frames.now outs.old brought.now to }
{
    match m.find(to) {
        Some(j) => compare_with(p, m.method().class, outs, brought, frames.get(j)),
        None => {}
    }
}

/// What edges bring to some pcs, with what stands there.
fn compare_all(
    p: &Program,
    m: &HandledMethod<'_>,
    outs: &mut Rows<bool>,
    frames: &Rows<Option<Stack<Colour>>>,
    tos: &[u32],
    brought: &Stack<Colour>,
)
    ensures { outs.new ≡ compared_each p.now m.now frames.now outs.old brought.now tos.now }
{
    for to in tos {
        compare_at(p, m, outs, frames, *to, brought);
    }
}

/// One exception, with what stands at a handler.
fn compare_exception(p: &Program, class: u16, outs: &mut Rows<bool>, there: &Stack<Colour>)
    ensures { outs.new ≡ compared p.now class outs.old (plain ∷ []) there.now }
{
    if 1 != there.len() {
        class_out(p, class, outs);
        return;
    }
    differ_out(outs, Colour::Plain, colour_at(there, 0));
}

fn compare_exception_with(
    p: &Program,
    class: u16,
    outs: &mut Rows<bool>,
    there: Option<&Option<Stack<Colour>>>,
)
    ensures { outs.new
        ≡ compared_with p.now class outs.old (plain ∷ []) (option_copied there.entry) }
{
    match there {
        Some(Some(frame)) => compare_exception(p, class, outs, frame),
        Some(None) => {}
        None => {}
    }
}

fn compare_handler(
    p: &Program,
    m: &HandledMethod<'_>,
    outs: &mut Rows<bool>,
    frames: &Rows<Option<Stack<Colour>>>,
    to: u32,
)
    ensures { outs.new ≡ compared_at p.now m.now frames.now outs.old (plain ∷ []) to }
{
    match m.find(to) {
        Some(j) => compare_exception_with(p, m.method().class, outs, frames.get(j)),
        None => {}
    }
}

/// One exception, with what stands at the handlers of the rows that cover a pc, up to the first
/// that catches all.
fn compare_caught(
    p: &Program,
    m: &HandledMethod<'_>,
    outs: &mut Rows<bool>,
    frames: &Rows<Option<Stack<Colour>>>,
    pc: u32,
)
    ensures { outs.new ≡ compared_each p.now m.now frames.now outs.old (plain ∷ [])
        (handlers_of (until_all (covering m.now pc))) }
{
    let mut k = 0;
    while let Some((behind, handler)) = m.next_row(k, pc, 0) {
        compare_handler(p, m, outs, frames, handler.handler);
        if handler.catch_class == 0 {
            return;
        }
        k = behind;
    }
}

/// The same of all edges of an instruction that finds these colours.
pub fn compare_edges(
    alloc: Global,
    p: &Program,
    m: &HandledMethod<'_>,
    outs: &mut Rows<bool>,
    frames: &Rows<Option<Stack<Colour>>>,
    insn: &Insn,
    target: Target,
    row: &OpRow,
    stack: &Stack<Colour>,
) -> Result<(), AllocError>
    ensures { OnOk result (outs.new
        ≡ edges_out p.now m.now frames.now insn.now target row.now stack.now outs.old) }
{
    let after = colours_after(alloc, p, insn, target, row, stack)?;
    let tos = edges(alloc, insn)?;
    compare_all(p, m, outs, frames, tos.as_slice(), &after);
    if can_throw(&insn.op) {
        compare_caught(p, m, outs, frames, insn.pc);
    }
    Ok(())
}

// What one instruction does.

/// A `getfield` on another value than `this`.
fn check_get(p: &Program, outs: &mut Rows<bool>, field: u32, tags: &TagFrame)
    ensures { outs.new ≡ get_out p.now outs.old field tags.now }
{
    if is_array_field(p, field) && !is_this(stack_tag(tags, 0)) {
        note(outs, Some(field));
    }
}

fn is_newarray(insn: Option<&Insn>) -> bool
    ensures { result ≡ is_newarray (option_copied insn.entry) }
{
    match insn {
        Some(insn) => match insn.op {
            Op::Newarray => true,
            _ => false,
        },
        None => false,
    }
}

/// Whether the instruction of a number stands right after a `newarray`, and nothing else leads to
/// it.
fn stores_new(m: &MethodInfo, branched: &[bool], i: usize) -> bool
    ensures { result ≡ stores_new m.now branched.now i }
{
    i > 0 && is_newarray(m.code.get(i - 1)) && !flag_at(branched, i)
}

/// A `putfield` without its guard, or of an array that is not new.
fn check_put(
    p: &Program,
    outs: &mut Rows<bool>,
    m: &MethodInfo,
    branched: &[bool],
    i: usize,
    field: u32,
    tags: &TagFrame,
)
    ensures { outs.new ≡ put_out p.now outs.old m.now branched.now i field tags.now }
{
    if is_array_field(p, field) && !(writes_guarded(m, tags) && stores_new(m, branched, i)) {
        note(outs, Some(field));
    }
}

/// An element that is written where the field may not be written.
fn check_store(outs: &mut Rows<bool>, m: &MethodInfo, tags: &TagFrame, stack: &Stack<Colour>)
    ensures { outs.new ≡ store_out outs.old m.now tags.now stack.now }
{
    if !stands_guarded(m, tags) {
        colour_out(outs, colour_at(stack, 2));
    }
}

pub fn check_use(
    p: &Program,
    outs: &mut Rows<bool>,
    m: &MethodInfo,
    branched: &[bool],
    i: usize,
    op: &Op,
    target: Target,
    tags: &TagFrame,
    stack: &Stack<Colour>,
)
    ensures { outs.new
        ≡ used_out p.now m.now branched.now i op.now target tags.now stack.now outs.old }
{
    match op {
        Op::Getfield(_) => match target {
            Target::Field(field) => check_get(p, outs, field, tags),
            _ => {}
        },
        Op::Putfield(_) => match target {
            Target::Field(field) => check_put(p, outs, m, branched, i, field, tags),
            _ => {}
        },
        Op::Iastore => check_store(outs, m, tags, stack),
        _ => {}
    }
}

/// Whether an instruction may take an array of an owned field, at a place from the top of the
/// stack.
fn may_take_array(op: &Op, place: usize) -> bool
    ensures { result ≡ may_take_array op.now place }
{
    match op {
        Op::Iaload => place == 1,
        Op::Iastore => place == 2,
        Op::Arraylength => true,
        Op::Stack(_) => true,
        _ => false,
    }
}

fn check_taken(outs: &mut Rows<bool>, op: &Op, place: usize, stack: &Stack<Colour>)
    ensures { outs.new ≡ (if may_take_array op.now place then outs.old
        else colour_out outs.old (colour_at stack.now place)) }
{
    if !may_take_array(op, place) {
        colour_out(outs, colour_at(stack, place));
    }
}

pub fn check_takes(outs: &mut Rows<bool>, op: &Op, count: usize, stack: &Stack<Colour>)
    ensures { outs.new ≡ taken_before outs.old op.now stack.now count }
{
    for place in 0..count {
        check_taken(outs, op, place, stack);
    }
}

/// All that an instruction does which has this row, and finds these tags and these colours.
fn check_insn(
    alloc: Global,
    p: &Program,
    m: &HandledMethod<'_>,
    branched: &[bool],
    frames: &Rows<Option<Stack<Colour>>>,
    i: usize,
    insn: &Insn,
    target: Target,
    tags: &TagFrame,
    stack: &Stack<Colour>,
    outs: &mut Rows<bool>,
) -> Result<(), AllocError>
    ensures { OnOk result (outs.new ≡ insn_out p.now m.now branched.now frames.now i insn.now target
        (row_of p.now m.now insn.now target) tags.now stack.now outs.old) }
{
    let row = row(alloc, p, m.method(), insn.pc, target, &insn.op)?;
    check_use(
        p,
        outs,
        m.method(),
        branched,
        i,
        &insn.op,
        target,
        tags,
        stack,
    );
    check_takes(outs, &insn.op, row.takes.len(), stack);
    compare_edges(alloc, p, m, outs, frames, insn, target, &row, stack)
}

/// The same of the instruction of a number, where it is reached.
fn check_at(
    alloc: Global,
    p: &Program,
    m: &HandledMethod<'_>,
    tags: &Tags,
    branched: &[bool],
    frames: &Rows<Option<Stack<Colour>>>,
    i: usize,
    outs: &mut Rows<bool>,
) -> Result<(), AllocError>
    ensures { OnOk result (outs.new ≡ out_at p.now m.now branched.now frames.now i
        (slice_get m.now.code i) (slice_get m.now.targets i) (slice_get tags.now.frames i)
        (slice_get frames.now i) outs.old) }
{
    let method = m.method();
    let (Some(insn), Some(target)) = (method.code.get(i), method.targets.get(i)) else {
        return Ok(());
    };
    let (Some(Some(f)), Some(Some(stack))) = (tags.frames.get(i), frames.get(i)) else {
        return Ok(());
    };
    check_insn(
        alloc, p, m, branched, frames, i, insn, *target, f, stack, outs,
    )
}

/// All instructions of a method.
pub fn check_insns(
    alloc: Global,
    p: &Program,
    m: &HandledMethod<'_>,
    tags: &Tags,
    branched: &[bool],
    frames: &Rows<Option<Stack<Colour>>>,
    outs: &mut Rows<bool>,
) -> Result<(), AllocError>
    ensures { OnOk result (outs.new ≡ method_out p.now m.now tags.now.frames branched.now
        frames.now outs.old (length m.now.code)) }
{
    for i in 0..m.method().code.len() {
        check_at(alloc, p, m, tags, branched, frames, i, outs)?;
    }
    Ok(())
}

// Where branches lead.

/// The flag of the instruction or the class of this number is set.
pub fn set_flag(flags: &mut Rows<bool>, number: Option<usize>)
    ensures { flags.new ≡ field_noted flags.old number }
{
    match number {
        Some(j) => {
            if j < flags.len() {
                flags.set(j, true);
            }
        }
        None => {}
    }
}

fn set_targets(m: &HandledMethod<'_>, flags: &mut Rows<bool>, tos: &[u32])
    ensures { flags.new ≡ targets_set m.now.code flags.old tos.now }
{
    for to in tos {
        set_flag(flags, m.find(*to));
    }
}

fn set_branches(
    alloc: Global,
    m: &HandledMethod<'_>,
    flags: &mut Rows<bool>,
) -> Result<(), AllocError>
    ensures { OnOk result (flags.new ≡ branches_set m.now.code flags.old m.now.code) }
{
    for insn in m.method().code.as_slice() {
        let tos = branches_to(alloc, &insn.op)?;
        set_targets(m, flags, tos.as_slice());
    }
    Ok(())
}

fn set_handlers(m: &HandledMethod<'_>, flags: &mut Rows<bool>)
    ensures { flags.new ≡ targets_set m.now.code flags.old (handlers_of m.now.rows) }
{
    for handler in m.method().rows.as_slice() {
        set_flag(flags, m.find(handler.handler));
    }
}

/// Of each instruction, whether a branch, a switch or a handler row has it as a target, reached or
/// not.
pub fn branched_to(alloc: Global, m: &HandledMethod<'_>) -> Result<Rows<bool>, AllocError>
    ensures { IfOk result (λ flags. flags ≡ branched_flags m.now) }
{
    let mut flags = no_flags(alloc, m.method().code.len())?;
    set_branches(alloc, m, &mut flags)?;
    set_handlers(m, &mut flags);
    Ok(flags)
}

// The elements that are read.

pub fn read_colour(insn: Option<&Insn>, frame: Option<&Option<Stack<Colour>>>) -> Colour
    ensures { result ≡ read_colour (option_copied insn.entry)
        (option_copied frame.entry) }
{
    match (insn, frame) {
        (Some(insn), Some(Some(stack))) => match insn.op {
            Op::Iaload => colour_at(stack, 1),
            _ => Colour::Plain,
        },
        _ => Colour::Plain,
    }
}

/// The colours of the arrays that the instructions of a method read elements of.
pub fn read_colours(
    alloc: Global,
    m: &MethodInfo,
    frames: &Rows<Option<Stack<Colour>>>,
) -> Result<Rows<Colour>, AllocError>
    ensures { IfOk result
        (λ colours. colours ≡ read_colours_before m.now frames.now (length m.now.code)) }
{
    let mut colours = Rows::new(alloc);
    for i in 0..m.code.len() {
        colours.push(read_colour(m.code.get(i), frames.get(i)))?;
    }
    Ok(colours)
}
