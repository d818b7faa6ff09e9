//! Rows of instructions that hang on what a constant names.

ghost use Rattle.std.specs.Prelude.{◌≡◌, ◌∷◌, [], length, map, reverse, Some, None, IfOk};
ghost use Rattle.std.specs.Option.{option_copied};
ghost use Rattle.jvm_types.specs.CodeTable.{stack_row, type_of, want_of, arguments, result_of};
ghost use Rattle.jvm_types.specs.CodeTable.{is_init, no_row, get_static_row, get_row, put_row};
ghost use Rattle.jvm_types.specs.CodeTable.{put_static_row, virtual_row, special_row, static_row};
ghost use Rattle.jvm_types.specs.CodeTable.{returned_want, constant_row};
ghost use Rattle.jvm_types.specs.declared.op_row.Given.TheVariants.{Fresh};
ghost use Rattle.jvm_types.specs.declared.program.Target.TheVariants as targets;

use crate::row_forms::{AN_INT, no_row, stack_row};
use jvm_types::class_numbers::{OBJECT_CLASS, PRINT_STREAM_CLASS};
use jvm_types::{
    FieldInfo, Given, Kind, MethodInfo, Op, OpRow, Program, Rows, Target, VType, Want,
};
use std::alloc::{AllocError, Global};

pub fn type_of(kind: Kind) -> VType
    ensures { result ≡ type_of kind }
{
    match kind {
        Kind::Int | Kind::Bool => VType::Int,
        Kind::Ref(class) => VType::Ref(class),
    }
}

fn want_of(kind: Kind) -> Want
    ensures { result ≡ want_of kind }
{
    match kind {
        Kind::Int | Kind::Bool => Want::AnInt,
        Kind::Ref(class) => Want::AnObject(class),
    }
}

/// Whether a method is an `<init>`.
pub fn is_init(method: &MethodInfo) -> bool
    ensures { result ≡ is_init method.now }
{
    method.name.as_slice() == b"<init>".as_slice()
}

fn reversed_wants(alloc: Global, kinds: &[Kind]) -> Result<Vec<Want>, AllocError>
    ensures { IfOk result (λ wants. wants.items ≡ map want_of (reverse kinds.now)) }
{
    kinds.iter().rev().map(|kind| want_of(*kind)).collect(alloc)
}

/// What is asked of the arguments, of which the last is on top.
fn arguments(alloc: Global, called: &MethodInfo) -> Result<Rows<Want>, AllocError>
    ensures { IfOk result (λ wants. wants ≡ arguments called.now) }
{
    Ok(Rows::from_vec(reversed_wants(alloc, called.args.as_slice())?))
}

/// The result of a method, where it has one.
fn result_of(alloc: Global, called: &MethodInfo) -> Result<Rows<Given>, AllocError>
    ensures { IfOk result (λ given. given ≡ result_of called.now) }
{
    let mut given = Rows::new(alloc);
    if let Some(kind) = called.result {
        given.push(Given::Fresh(type_of(kind)))?;
    }
    Ok(given)
}

fn get_static_row(alloc: Global, field: Option<&FieldInfo>) -> Result<OpRow, AllocError>
    ensures { IfOk result (λ r. r ≡ get_static_row (option_copied field.entry)) }
{
    match field {
        None => Ok(no_row(alloc)),
        Some(field) => stack_row(alloc, &[], &[Given::Fresh(type_of(field.kind))]),
    }
}

fn get_row(alloc: Global, field: Option<&FieldInfo>) -> Result<OpRow, AllocError>
    ensures { IfOk result (λ r. r ≡ get_row (option_copied field.entry)) }
{
    match field {
        None => Ok(no_row(alloc)),
        Some(field) => stack_row(
            alloc,
            &[Want::AnObject(field.class)],
            &[Given::Fresh(type_of(field.kind))],
        ),
    }
}

fn put_row(alloc: Global, field: Option<&FieldInfo>) -> Result<OpRow, AllocError>
    ensures { IfOk result (λ r. r ≡ put_row (option_copied field.entry)) }
{
    match field {
        None => Ok(no_row(alloc)),
        Some(field) => stack_row(
            alloc,
            &[want_of(field.kind), Want::AHolder(field.class)],
            &[],
        ),
    }
}

fn put_static_row(alloc: Global, field: Option<&FieldInfo>) -> Result<OpRow, AllocError>
    ensures { IfOk result (λ r. r ≡ put_static_row (option_copied field.entry)) }
{
    match field {
        None => Ok(no_row(alloc)),
        Some(field) => stack_row(alloc, &[want_of(field.kind)], &[]),
    }
}

fn call_row(takes: Rows<Want>, gives: Rows<Given>) -> OpRow
    ensures { result ≡ stack_row takes gives }
{
    OpRow {
        takes,
        gives,
        reads: None,
        writes: None,
    }
}

fn virtual_row(alloc: Global, called: Option<&MethodInfo>) -> Result<OpRow, AllocError>
    ensures { IfOk result (λ r. r ≡ virtual_row (option_copied called.entry)) }
{
    let Some(called) = called else {
        return Ok(no_row(alloc));
    };
    let mut takes = arguments(alloc, called)?;
    takes.push(Want::AnObject(called.class))?;
    Ok(call_row(takes, result_of(alloc, called)?))
}

/// A call of an `<init>`, or of a private method of the own class.
fn special_row(alloc: Global, called: Option<&MethodInfo>) -> Result<OpRow, AllocError>
    ensures { IfOk result (λ r. r ≡ special_row (option_copied called.entry)) }
{
    let Some(called) = called else {
        return Ok(no_row(alloc));
    };
    let mut takes = arguments(alloc, called)?;
    takes.push(if is_init(called) {
        Want::ToStart(called.class)
    } else {
        Want::AnObject(called.class)
    })?;
    Ok(call_row(takes, result_of(alloc, called)?))
}

fn static_row(alloc: Global, called: Option<&MethodInfo>) -> Result<OpRow, AllocError>
    ensures { IfOk result (λ r. r ≡ static_row (option_copied called.entry)) }
{
    let Some(called) = called else {
        return Ok(no_row(alloc));
    };
    Ok(call_row(arguments(alloc, called)?, result_of(alloc, called)?))
}

/// `areturn` asks for the class of the descriptor, where that names one.
pub fn returned(result_kind: Option<Kind>) -> Want
    ensures { result ≡ returned_want result_kind }
{
    match result_kind {
        Some(Kind::Ref(class)) => Want::AnObject(class),
        _ => Want::AnObject(OBJECT_CLASS),
    }
}

fn field_row(alloc: Global, p: &Program, pc: u32, f: u32, op: &Op) -> Result<OpRow, AllocError>
    ensures { IfOk result (λ r. r ≡ constant_row p.now pc (targets.Field f) op.now) }
{
    let field = p.fields.get(f as usize);
    match op {
        Op::Getstatic(_) => get_static_row(alloc, field),
        Op::Putstatic(_) => put_static_row(alloc, field),
        Op::Getfield(_) => get_row(alloc, field),
        Op::Putfield(_) => put_row(alloc, field),
        _ => Ok(no_row(alloc)),
    }
}

fn method_row(alloc: Global, p: &Program, pc: u32, f: u32, op: &Op) -> Result<OpRow, AllocError>
    ensures { IfOk result (λ r. r ≡ constant_row p.now pc (targets.Method f) op.now) }
{
    let called = p.methods.get(f as usize);
    match op {
        Op::Invokevirtual(_) => virtual_row(alloc, called),
        Op::Invokespecial(_) => special_row(alloc, called),
        Op::Invokestatic(_) => static_row(alloc, called),
        _ => Ok(no_row(alloc)),
    }
}

/// The row of an instruction with a constant, by what that names.
pub fn constant_row(
    alloc: Global,
    p: &Program,
    pc: u32,
    target: Target,
    op: &Op,
) -> Result<OpRow, AllocError>
    ensures { IfOk result (λ r. r ≡ constant_row p.now pc target op.now) }
{
    match target {
        Target::Nothing => Ok(no_row(alloc)),
        Target::Value(_) => stack_row(alloc, &[], &[AN_INT]),
        Target::Class(_) => stack_row(alloc, &[], &[Given::Fresh(VType::New(pc))]),
        Target::Field(f) => field_row(alloc, p, pc, f, op),
        Target::Method(f) => method_row(alloc, p, pc, f, op),
        Target::Init(class) => stack_row(alloc, &[Want::ToStart(class)], &[]),
        Target::Out => stack_row(alloc, &[], &[Given::Fresh(VType::Ref(PRINT_STREAM_CLASS))]),
        Target::Println => stack_row(
            alloc,
            &[Want::AnInt, Want::AnObject(PRINT_STREAM_CLASS)],
            &[],
        ),
        Target::Wait | Target::Notify | Target::NotifyAll => {
            stack_row(alloc, &[Want::AnObject(OBJECT_CLASS)], &[])
        }
    }
}

/// How many values an instruction takes that names a method.
fn method_takes(p: &Program, pc: u32, number: u32, op: &Op) -> usize
    ensures { result ≡ length (constant_row p.now pc (targets.Method number) op.now).takes }
{
    let Some(called) = p.methods.get(number as usize) else {
        return 0;
    };
    match op {
        // as a slice, whose length is known to leave room for one more
        Op::Invokevirtual(_) | Op::Invokespecial(_) => called.args.as_slice().len() + 1,
        Op::Invokestatic(_) => called.args.len(),
        _ => 0,
    }
}

/// How many values an instruction takes that names a field.
fn field_takes(p: &Program, pc: u32, number: u32, op: &Op) -> usize
    ensures { result ≡ length (constant_row p.now pc (targets.Field number) op.now).takes }
{
    if p.fields.get(number as usize).is_none() {
        return 0;
    }
    match op {
        Op::Putstatic(_) | Op::Getfield(_) => 1,
        Op::Putfield(_) => 2,
        _ => 0,
    }
}

/// How many values an instruction with a constant takes, by what that names.
pub fn constant_takes(p: &Program, pc: u32, target: Target, op: &Op) -> usize
    ensures { result ≡ length (constant_row p.now pc target op.now).takes }
{
    match target {
        Target::Nothing | Target::Value(_) | Target::Class(_) | Target::Out => 0,
        Target::Field(number) => field_takes(p, pc, number, op),
        Target::Method(number) => method_takes(p, pc, number, op),
        Target::Init(_) | Target::Wait | Target::Notify | Target::NotifyAll => 1,
        Target::Println => 2,
    }
}
