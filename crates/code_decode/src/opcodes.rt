//! The table of opcodes (JVMS 6.5, in the groups of JVMS 7).

ghost use Rattle.std.specs.Prelude.{◌≡◌, ◌≤◌, None};
ghost use Rattle.jvm_types.specs.CodeTable.{form_of, first_row, constants, loads, stores};
ghost use Rattle.jvm_types.specs.CodeTable.{arithmetic, control, references, plain_op};
ghost use Rattle.jvm_types.specs.CodeTable.{Branch as NearBranch, LocalAndStep, IntArray};
ghost use Rattle.jvm_types.specs.CodeGrammar.{padding_size};
ghost use Rattle.code_decode.specs.Decoding.{IsDecodeStep};

use crate::numbers::{behind, landing, pc_of, read_s2, read_s4, read_u1, read_u2};
use crate::operands::{Found, Stop, branch, plain, sized};
use crate::switches::{lookup, table};
use jvm_types::{Cmp, KRule, Op};
use std::alloc::Global;

/// An opcode that is not in the table.
fn unknown() -> Result<Found, Stop>
    ensures { result ≡ Err (Stop.Rule KRule.K1) }
{
    Err(Stop::Rule(KRule::K1))
}

/// Of 0x00 to 0x13, which push a constant, those with operands.
fn constants(alloc: Global, opcode: u8, pc: u16, rest: &[u8]) -> Result<Found, Stop>
    requires { plain_op (first_row (constants opcode)) ≡ None }
    ensures { IsDecodeStep pc (first_row (constants opcode)) rest.now result }
{
    match opcode {
        0x10 => sized(
            alloc,
            Op::Bipush(i32::from(read_u1(rest)?.cast_signed())),
            1,
        ),
        0x11 => sized(alloc, Op::Sipush(i32::from(read_s2(rest)?)), 2),
        0x12 => sized(alloc, Op::Ldc(u16::from(read_u1(rest)?)), 1),
        0x13 => sized(alloc, Op::LdcW(read_u2(rest)?), 2),
        _ => unknown(),
    }
}

/// Of 0x15 to 0x2e, which push a local or an element, those with operands.
fn loads(alloc: Global, opcode: u8, pc: u16, rest: &[u8]) -> Result<Found, Stop>
    requires { plain_op (first_row (loads opcode)) ≡ None }
    ensures { IsDecodeStep pc (first_row (loads opcode)) rest.now result }
{
    match opcode {
        0x15 => sized(alloc, Op::Iload(u16::from(read_u1(rest)?)), 1),
        0x19 => sized(alloc, Op::Aload(u16::from(read_u1(rest)?)), 1),
        _ => unknown(),
    }
}

/// Of 0x36 to 0x4f, which write a local or an element, those with operands.
fn stores(alloc: Global, opcode: u8, pc: u16, rest: &[u8]) -> Result<Found, Stop>
    requires { plain_op (first_row (stores opcode)) ≡ None }
    ensures { IsDecodeStep pc (first_row (stores opcode)) rest.now result }
{
    match opcode {
        0x36 => sized(alloc, Op::Istore(u16::from(read_u1(rest)?)), 1),
        0x3a => sized(alloc, Op::Astore(u16::from(read_u1(rest)?)), 1),
        _ => unknown(),
    }
}

/// 0x84: `iinc`.
fn iinc(alloc: Global, pc: u16, rest: &[u8]) -> Result<Found, Stop>
    ensures { IsDecodeStep pc (Some (LocalAndStep Op.Iinc)) rest.now result }
{
    match rest {
        [local, step, ..] => {
            let op = Op::Iinc(u16::from(*local), i32::from(step.cast_signed()));
            sized(alloc, op, 2)
        }
        _ => Err(Stop::Rule(KRule::K2)),
    }
}

/// Of 0x60 to 0x93, arithmetic on ints and conversions of an int, those with operands.
fn arithmetic(alloc: Global, opcode: u8, pc: u16, rest: &[u8]) -> Result<Found, Stop>
    requires { plain_op (first_row (arithmetic opcode)) ≡ None }
    ensures { IsDecodeStep pc (first_row (arithmetic opcode)) rest.now result }
{
    match opcode {
        0x84 => iinc(alloc, pc, rest),
        _ => unknown(),
    }
}

/// Of 0x99 to 0xb1, branches, switches and returns, those with operands.
fn control(alloc: Global, opcode: u8, pc: u16, rest: &[u8]) -> Result<Found, Stop>
    requires { plain_op (first_row (control opcode)) ≡ None }
    ensures { IsDecodeStep pc (first_row (control opcode)) rest.now result }
{
    match opcode {
        0x99 => test(alloc, Cmp::Eq, pc, rest),
        0x9a => test(alloc, Cmp::Ne, pc, rest),
        0x9b => test(alloc, Cmp::Lt, pc, rest),
        0x9c => test(alloc, Cmp::Ge, pc, rest),
        0x9d => test(alloc, Cmp::Gt, pc, rest),
        0x9e => test(alloc, Cmp::Le, pc, rest),
        0x9f => compare(alloc, Cmp::Eq, pc, rest),
        0xa0 => compare(alloc, Cmp::Ne, pc, rest),
        0xa1 => compare(alloc, Cmp::Lt, pc, rest),
        0xa2 => compare(alloc, Cmp::Ge, pc, rest),
        0xa3 => compare(alloc, Cmp::Gt, pc, rest),
        0xa4 => compare(alloc, Cmp::Le, pc, rest),
        0xa5 => {
            let way = i32::from(read_s2(rest)?);
            branch(alloc, Op::IfAcmpeq(pc_of(pc, way)), 2, landing(pc, way))
        }
        0xa6 => {
            let way = i32::from(read_s2(rest)?);
            branch(alloc, Op::IfAcmpne(pc_of(pc, way)), 2, landing(pc, way))
        }
        0xa7 => {
            let way = i32::from(read_s2(rest)?);
            branch(alloc, Op::Goto(pc_of(pc, way)), 2, landing(pc, way))
        }
        0xaa => table(alloc, pc, padding_size(pc), behind(padding_size(pc), rest)),
        0xab => lookup(alloc, pc, padding_size(pc), behind(padding_size(pc), rest)),
        _ => unknown(),
    }
}

/// An int on the stack against 0.
fn test(alloc: Global, cmp: Cmp, pc: u16, rest: &[u8]) -> Result<Found, Stop>
    ensures { IsDecodeStep pc (Some (NearBranch (Op.If cmp))) rest.now result }
{
    let way = i32::from(read_s2(rest)?);
    branch(alloc, Op::If(cmp, pc_of(pc, way)), 2, landing(pc, way))
}

/// Two ints on the stack.
fn compare(alloc: Global, cmp: Cmp, pc: u16, rest: &[u8]) -> Result<Found, Stop>
    ensures { IsDecodeStep pc (Some (NearBranch (Op.IfIcmp cmp))) rest.now result }
{
    let way = i32::from(read_s2(rest)?);
    branch(alloc, Op::IfIcmp(cmp, pc_of(pc, way)), 2, landing(pc, way))
}

/// How many bytes pad a switch.
fn padding_size(pc: u16) -> usize
    ensures is { result ≡ padding_size pc }
    ensures few { result ≤ 3 }
{
    3 - usize::from(pc) % 4
}

/// 0xbc: `newarray`, whose type has to be int.
fn newarray(alloc: Global, pc: u16, rest: &[u8]) -> Result<Found, Stop>
    ensures { IsDecodeStep pc (Some (IntArray Op.Newarray)) rest.now result }
{
    if read_u1(rest)? == 10 {
        sized(alloc, Op::Newarray, 1)
    } else {
        unknown()
    }
}

/// Of 0xb2 to 0xc8, fields, methods, objects, monitors, extended branches, those with operands.
fn references(alloc: Global, opcode: u8, pc: u16, rest: &[u8]) -> Result<Found, Stop>
    requires { plain_op (first_row (references opcode)) ≡ None }
    ensures { IsDecodeStep pc (first_row (references opcode)) rest.now result }
{
    match opcode {
        0xb2 => sized(alloc, Op::Getstatic(read_u2(rest)?), 2),
        0xb3 => sized(alloc, Op::Putstatic(read_u2(rest)?), 2),
        0xb4 => sized(alloc, Op::Getfield(read_u2(rest)?), 2),
        0xb5 => sized(alloc, Op::Putfield(read_u2(rest)?), 2),
        0xb6 => sized(alloc, Op::Invokevirtual(read_u2(rest)?), 2),
        0xb7 => sized(alloc, Op::Invokespecial(read_u2(rest)?), 2),
        0xb8 => sized(alloc, Op::Invokestatic(read_u2(rest)?), 2),
        0xbb => sized(alloc, Op::New(read_u2(rest)?), 2),
        0xbc => newarray(alloc, pc, rest),
        0xc6 => {
            let way = i32::from(read_s2(rest)?);
            branch(alloc, Op::Ifnull(pc_of(pc, way)), 2, landing(pc, way))
        }
        0xc7 => {
            let way = i32::from(read_s2(rest)?);
            branch(alloc, Op::Ifnonnull(pc_of(pc, way)), 2, landing(pc, way))
        }
        0xc8 => {
            let way = read_s4(rest)?;
            branch(alloc, Op::GotoW(pc_of(pc, way)), 4, landing(pc, way))
        }
        _ => unknown(),
    }
}

/// The instruction of an opcode that has operands or is not in the table.
fn with_operands(alloc: Global, opcode: u8, pc: u16, rest: &[u8]) -> Result<Found, Stop>
    requires { plain_op (form_of opcode) ≡ None }
    ensures { IsDecodeStep pc (form_of opcode) rest.now result }
{
    if opcode < 0x15 {
        constants(alloc, opcode, pc, rest)
    } else if opcode < 0x36 {
        loads(alloc, opcode, pc, rest)
    } else if opcode < 0x57 {
        stores(alloc, opcode, pc, rest)
    } else if opcode < 0x60 {
        unknown()
    } else if opcode < 0x99 {
        arithmetic(alloc, opcode, pc, rest)
    } else if opcode < 0xb2 {
        control(alloc, opcode, pc, rest)
    } else {
        references(alloc, opcode, pc, rest)
    }
}

/// The instruction at a pc, by its opcode and the bytes behind it.
pub fn step(alloc: Global, opcode: u8, pc: u16, rest: &[u8]) -> Result<Found, Stop>
    ensures { IsDecodeStep pc (form_of opcode) rest.now result }
{
    match Op::plain(opcode) {
        Some(op) => plain(alloc, op),
        None => with_operands(alloc, opcode, pc, rest),
    }
}
