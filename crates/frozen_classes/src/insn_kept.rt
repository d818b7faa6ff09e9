//! Whether the instructions of an `<init>` let `this` out.

ghost use Rattle.std.specs.Prelude.{◌≡◌, ◌&&◌, length, slice_get, IfOk};
ghost use Rattle.checked_program.specs.FrozenPlaces.{is_field_of, is_final_of, may_take};
ghost use Rattle.frozen_classes.specs.KeptThis.{all_before, begins_well, reached_frame_at};
ghost use Rattle.frozen_classes.specs.KeptThis.{keeps_all, keeps_at, keeps_here, puts_well};
ghost use Rattle.frozen_classes.specs.KeptThis.{takes_well};

use crate::edges_kept::{caught_well, joins_all, reached_tags};
use crate::places::{local_this, stack_this};
use checked_program::{TagFrame, Tags};
use code_table::{IndexedMethod, row};
use code_visits::Budget;
use jvm_types::class_numbers::OBJECT_CLASS;
use jvm_types::flags::{is_final, is_static};
use jvm_types::{Insn, MethodInfo, Op, OpRow, Program, Target};
use std::alloc::{AllocError, Global};

fn is_field_of(p: &Program, class: u16, field: u32) -> bool
    ensures { result ≡ is_field_of class (slice_get p.now.fields field) }
{
    match p.fields.get(field as usize) {
        Some(f) => f.class == class,
        None => false,
    }
}

fn is_final_of(p: &Program, class: u16, field: u32) -> bool
    ensures { result ≡ is_final_of class (slice_get p.now.fields field) }
{
    match p.fields.get(field as usize) {
        Some(f) => f.class == class && is_final(f.flags),
        None => false,
    }
}

/// Whether an instruction of an `<init>` of the class may take `this` at a place counted from the
/// top of the stack.
fn may_take(p: &Program, class: u16, op: &Op, target: Target, k: usize) -> bool
    ensures { result ≡ may_take p.now class op.now target k }
{
    match op {
        Op::Stack(_) => true,
        Op::Getfield(_) => match target {
            Target::Field(f) => k == 0 && is_field_of(p, class, f),
            _ => false,
        },
        Op::Putfield(_) => match target {
            Target::Field(f) => k == 1 && is_field_of(p, class, f),
            _ => false,
        },
        Op::Invokespecial(_) => match target {
            Target::Init(started) => k == 0 && started == OBJECT_CLASS,
            _ => false,
        },
        _ => false,
    }
}

fn takes_well(p: &Program, class: u16, op: &Op, target: Target, f: &TagFrame, count: usize) -> bool
    ensures { result ≡ takes_well p.now class op.now target f.now count }
{
    let mut takes = true;
    for k in 0..count {
        let well = !stack_this(f, k) || may_take(p, class, op, target, k);
        takes = takes && well;
    }
    takes
}

/// Whether an instruction writes a final field of the class on `this` alone.
fn puts_well(p: &Program, class: u16, op: &Op, target: Target, f: &TagFrame) -> bool
    ensures { result ≡ puts_well p.now class op.now target f.now }
{
    match op {
        Op::Putfield(_) => match target {
            Target::Field(field) => !is_final_of(p, class, field) || stack_this(f, 1),
            _ => true,
        },
        _ => true,
    }
}

fn keeps_here(
    alloc: Global,
    budget: &mut Budget,
    p: &Program,
    m: &IndexedMethod<'_>,
    t: &Tags,
    insn: &Insn,
    target: Target,
    row: &OpRow,
    f: &TagFrame,
) -> Result<bool, AllocError>
    ensures { IfOk result
        (λ b. b ≡ keeps_here p.now m.now t.now.frames insn.now target row.now f.now) }
{
    let method = m.method();
    budget.spend(row.takes.len())?;
    let takes = takes_well(p, method.class, &insn.op, target, f, row.takes.len());
    let puts = puts_well(p, method.class, &insn.op, target, f);
    let joins = joins_all(alloc, budget, row, f, m, t, insn)?;
    let catches = caught_well(alloc, budget, f, m, t, insn)?;
    Ok(takes && (puts && (joins && catches)))
}

/// Whether the instruction of a number keeps `this` inside.
fn keeps_at(
    alloc: Global,
    budget: &mut Budget,
    p: &Program,
    m: &IndexedMethod<'_>,
    t: &Tags,
    i: usize,
) -> Result<bool, AllocError>
    ensures { IfOk result (λ b.
        b ≡ keeps_at p.now m.now t.now.frames (slice_get m.now.code i)
        (slice_get m.now.targets i) (slice_get t.now.frames i)) }
{
    let method = m.method();
    match method.code.get(i) {
        Some(insn) => match method.targets.get(i) {
            Some(target) => match t.frames.get(i) {
                Some(Some(f)) => {
                    let moves = row(alloc, p, method, insn.pc, *target, &insn.op)?;
                    keeps_here(alloc, budget, p, m, t, insn, *target, &moves, f)
                }
                Some(None) => Ok(true),
                None => Ok(true),
            },
            None => Ok(true),
        },
        None => Ok(true),
    }
}

fn begins_well(m: &MethodInfo, t: &Tags) -> bool
    ensures { result ≡ begins_well m.now (reached_frame_at m.now t.now.frames 0) }
{
    match reached_tags(m, t, 0) {
        Some(f) => is_static(m.flags) || local_this(f, 0),
        None => true,
    }
}

fn both(first: bool, second: bool) -> bool
    ensures { result ≡ (first && second) }
{
    first && second
}

fn keeps_each(
    alloc: Global,
    budget: &mut Budget,
    p: &Program,
    m: &IndexedMethod<'_>,
    t: &Tags,
    len: usize,
) -> Result<bool, AllocError>
    ensures { IfOk result (λ b.
        b ≡ all_before (λ i.
        keeps_at p.now m.now t.now.frames (slice_get m.now.code i)
        (slice_get m.now.targets i) (slice_get t.now.frames i)) len) }
{
    let mut keeps = true;
    for i in 0..len {
        let well = keeps_at(alloc, budget, p, m, t, i)?;
        keeps = both(keeps, well);
    }
    Ok(keeps)
}

/// Whether a method keeps `this` inside.
pub(crate) fn keeps_all(
    alloc: Global,
    budget: &mut Budget,
    p: &Program,
    m: &IndexedMethod<'_>,
    t: &Tags,
) -> Result<bool, AllocError>
    ensures { IfOk result (λ b. b ≡ keeps_all p.now m.now t.now.frames) }
{
    let method = m.method();
    let begins = begins_well(method, t);
    let keeps = keeps_each(alloc, budget, p, m, t, method.code.len())?;
    Ok(begins && keeps)
}
