//! The instructions of a method (JVMS 6), with the targets of branches as pcs.

ghost use Rattle.std.specs.Prelude.{◌≡◌, IfOk};
ghost use Rattle.jvm_types.specs.CodeTable.{iconst_opcode, if_opcode, compare_opcode, opcode};
ghost use Rattle.jvm_types.specs.CodeTable.{first_row, constants, loads, stores, stack_moves};
ghost use Rattle.jvm_types.specs.CodeTable.{arithmetic, control, references, form_of, plain_op};

use crate::stack_move::StackMove;
use lists::Rows;
use std::alloc::{AllocError, Global};

/// How the ints of a conditional branch are compared.
#[derive(Clone, Copy, Debug, PartialEq, Eq)]
pub enum Cmp {
    Eq,
    Ne,
    Lt,
    Ge,
    Gt,
    Le,
}

/// One pair of a `lookupswitch`.
#[derive(Clone, Copy, Debug, PartialEq, Eq)]
pub struct Case {
    pub key: i32,
    /// The pc of the target.
    pub target: u32,
}

/// An instruction without its place. Targets are pcs; other numbers `u16` are locals or indices of
/// the constant pool. `iload u1` and `iload_0` share a variant, as do the forms of the other loads
/// and stores.
#[derive(Debug, Drop)]
pub enum Op {
    Nop,
    AconstNull,
    /// `iconst_m1` to `iconst_5`, with the number.
    Iconst(i32),
    Bipush(i32),
    Sipush(i32),
    Ldc(u16),
    LdcW(u16),
    Iload(u16),
    Aload(u16),
    Istore(u16),
    Astore(u16),
    Iaload,
    Iastore,
    /// Values of the stack are moved, and nothing else is done.
    Stack(StackMove),
    Iadd,
    Isub,
    Imul,
    Idiv,
    Irem,
    Ineg,
    Ishl,
    Ishr,
    Iushr,
    Iand,
    Ior,
    Ixor,
    /// The local, and what is added to it.
    Iinc(u16, i32),
    I2b,
    I2c,
    I2s,
    /// `ifeq` to `ifle`: the int on the stack against 0.
    If(Cmp, u32),
    IfIcmp(Cmp, u32),
    IfAcmpeq(u32),
    IfAcmpne(u32),
    Ifnull(u32),
    Ifnonnull(u32),
    Goto(u32),
    GotoW(u32),
    /// The targets are those of `low` and of the numbers that follow it.
    Tableswitch {
        otherwise: u32,
        low: i32,
        targets: Rows<u32>,
    },
    Lookupswitch {
        otherwise: u32,
        cases: Rows<Case>,
    },
    Ireturn,
    Areturn,
    Return,
    Getstatic(u16),
    Putstatic(u16),
    Getfield(u16),
    Putfield(u16),
    Invokevirtual(u16),
    Invokespecial(u16),
    Invokestatic(u16),
    New(u16),
    /// `newarray` of int.
    Newarray,
    Arraylength,
    Athrow,
    Monitorenter,
    Monitorexit,
}

/// `iconst_m1` to `iconst_5`; code has no other numbers there.
fn iconst_opcode(n: i32) -> u8
    ensures { result ≡ iconst_opcode n }
{
    if n < 0 {
        0x02
    } else if n < 1 {
        0x03
    } else if n < 2 {
        0x04
    } else if n < 3 {
        0x05
    } else if n < 4 {
        0x06
    } else if n < 5 {
        0x07
    } else {
        0x08
    }
}

fn if_opcode(c: Cmp) -> u8
    ensures { result ≡ if_opcode c }
{
    match c {
        Cmp::Eq => 0x99,
        Cmp::Ne => 0x9a,
        Cmp::Lt => 0x9b,
        Cmp::Ge => 0x9c,
        Cmp::Gt => 0x9d,
        Cmp::Le => 0x9e,
    }
}

fn compare_opcode(c: Cmp) -> u8
    ensures { result ≡ compare_opcode c }
{
    match c {
        Cmp::Eq => 0x9f,
        Cmp::Ne => 0xa0,
        Cmp::Lt => 0xa1,
        Cmp::Ge => 0xa2,
        Cmp::Gt => 0xa3,
        Cmp::Le => 0xa4,
    }
}

/// Of 0x00 to 0x13, which push a constant, those without operands.
fn plain_constant(opcode: u8) -> Option<Op>
    ensures { result ≡ plain_op (first_row (constants opcode)) }
{
    match opcode {
        0x00 => Some(Op::Nop),
        0x01 => Some(Op::AconstNull),
        0x02..=0x08 => Some(Op::Iconst(i32::from(opcode) - 3)),
        _ => None,
    }
}

/// Of 0x15 to 0x2e, which push a local or an element, those without operands.
fn plain_load(opcode: u8) -> Option<Op>
    ensures { result ≡ plain_op (first_row (loads opcode)) }
{
    match opcode {
        0x1a..=0x1d => Some(Op::Iload(u16::from(opcode) - 0x1a)),
        0x2a..=0x2d => Some(Op::Aload(u16::from(opcode) - 0x2a)),
        0x2e => Some(Op::Iaload),
        _ => None,
    }
}

/// Of 0x36 to 0x4f, which write a local or an element, those without operands.
fn plain_store(opcode: u8) -> Option<Op>
    ensures { result ≡ plain_op (first_row (stores opcode)) }
{
    match opcode {
        0x3b..=0x3e => Some(Op::Istore(u16::from(opcode) - 0x3b)),
        0x4b..=0x4e => Some(Op::Astore(u16::from(opcode) - 0x4b)),
        0x4f => Some(Op::Iastore),
        _ => None,
    }
}

/// 0x57 to 0x5f: moves of the stack, which have no operands.
fn plain_stack_move(opcode: u8) -> Option<Op>
    ensures { result ≡ plain_op (first_row (stack_moves opcode)) }
{
    match StackMove::of_opcode(opcode) {
        Some(stack_move) => Some(Op::Stack(stack_move)),
        None => None,
    }
}

/// Of 0x60 to 0x93, arithmetic on ints and conversions of an int, those without operands.
fn plain_arithmetic(opcode: u8) -> Option<Op>
    ensures { result ≡ plain_op (first_row (arithmetic opcode)) }
{
    match opcode {
        0x60 => Some(Op::Iadd),
        0x64 => Some(Op::Isub),
        0x68 => Some(Op::Imul),
        0x6c => Some(Op::Idiv),
        0x70 => Some(Op::Irem),
        0x74 => Some(Op::Ineg),
        0x78 => Some(Op::Ishl),
        0x7a => Some(Op::Ishr),
        0x7c => Some(Op::Iushr),
        0x7e => Some(Op::Iand),
        0x80 => Some(Op::Ior),
        0x82 => Some(Op::Ixor),
        0x91 => Some(Op::I2b),
        0x92 => Some(Op::I2c),
        0x93 => Some(Op::I2s),
        _ => None,
    }
}

/// Of 0x99 to 0xb1, branches, switches and returns, those without operands.
fn plain_control(opcode: u8) -> Option<Op>
    ensures { result ≡ plain_op (first_row (control opcode)) }
{
    match opcode {
        0xac => Some(Op::Ireturn),
        0xb0 => Some(Op::Areturn),
        0xb1 => Some(Op::Return),
        _ => None,
    }
}

/// Of 0xb2 to 0xc8, fields, methods, objects, monitors, extended branches, those without operands.
fn plain_reference(opcode: u8) -> Option<Op>
    ensures { result ≡ plain_op (first_row (references opcode)) }
{
    match opcode {
        0xbe => Some(Op::Arraylength),
        0xbf => Some(Op::Athrow),
        0xc2 => Some(Op::Monitorenter),
        0xc3 => Some(Op::Monitorexit),
        _ => None,
    }
}

impl Op {
    /// The instruction of an opcode without operands, or `None` where the opcode has operands or is
    /// none of this machine.
    pub fn plain(opcode: u8) -> Option<Op>
        ensures { result ≡ plain_op (form_of opcode) }
    {
        if opcode < 0x15 {
            plain_constant(opcode)
        } else if opcode < 0x36 {
            plain_load(opcode)
        } else if opcode < 0x57 {
            plain_store(opcode)
        } else if opcode < 0x60 {
            plain_stack_move(opcode)
        } else if opcode < 0x99 {
            plain_arithmetic(opcode)
        } else if opcode < 0xb2 {
            plain_control(opcode)
        } else {
            plain_reference(opcode)
        }
    }

    /// The opcode. The forms that an instruction shares have that of the one whose local stands
    /// beside it: `iload` and `iload_0` are `iload`.
    pub fn opcode(&self) -> u8
        ensures { result ≡ opcode self.now }
    {
        match self {
            Op::Nop => 0x00,
            Op::AconstNull => 0x01,
            Op::Iconst(n) => iconst_opcode(*n),
            Op::Bipush(_) => 0x10,
            Op::Sipush(_) => 0x11,
            Op::Ldc(_) => 0x12,
            Op::LdcW(_) => 0x13,
            Op::Iload(_) => 0x15,
            Op::Aload(_) => 0x19,
            Op::Istore(_) => 0x36,
            Op::Astore(_) => 0x3a,
            Op::Iaload => 0x2e,
            Op::Iastore => 0x4f,
            Op::Stack(stack_move) => stack_move.opcode(),
            Op::Iadd => 0x60,
            Op::Isub => 0x64,
            Op::Imul => 0x68,
            Op::Idiv => 0x6c,
            Op::Irem => 0x70,
            Op::Ineg => 0x74,
            Op::Ishl => 0x78,
            Op::Ishr => 0x7a,
            Op::Iushr => 0x7c,
            Op::Iand => 0x7e,
            Op::Ior => 0x80,
            Op::Ixor => 0x82,
            Op::Iinc(_, _) => 0x84,
            Op::I2b => 0x91,
            Op::I2c => 0x92,
            Op::I2s => 0x93,
            Op::If(c, _) => if_opcode(*c),
            Op::IfIcmp(c, _) => compare_opcode(*c),
            Op::IfAcmpeq(_) => 0xa5,
            Op::IfAcmpne(_) => 0xa6,
            Op::Ifnull(_) => 0xc6,
            Op::Ifnonnull(_) => 0xc7,
            Op::Goto(_) => 0xa7,
            Op::GotoW(_) => 0xc8,
            Op::Tableswitch { .. } => 0xaa,
            Op::Lookupswitch { .. } => 0xab,
            Op::Ireturn => 0xac,
            Op::Areturn => 0xb0,
            Op::Return => 0xb1,
            Op::Getstatic(_) => 0xb2,
            Op::Putstatic(_) => 0xb3,
            Op::Getfield(_) => 0xb4,
            Op::Putfield(_) => 0xb5,
            Op::Invokevirtual(_) => 0xb6,
            Op::Invokespecial(_) => 0xb7,
            Op::Invokestatic(_) => 0xb8,
            Op::New(_) => 0xbb,
            Op::Newarray => 0xbc,
            Op::Arraylength => 0xbe,
            Op::Athrow => 0xbf,
            Op::Monitorenter => 0xc2,
            Op::Monitorexit => 0xc3,
        }
    }

    /// A copy.
    pub fn copied(&self, alloc: Global) -> Result<Op, AllocError>
        ensures { IfOk result (λ copy. copy ≡ self.now) }
    {
        match self {
            Op::Nop => Ok(Op::Nop),
            Op::AconstNull => Ok(Op::AconstNull),
            Op::Iconst(value) => Ok(Op::Iconst(*value)),
            Op::Bipush(value) => Ok(Op::Bipush(*value)),
            Op::Sipush(value) => Ok(Op::Sipush(*value)),
            Op::Ldc(index) => Ok(Op::Ldc(*index)),
            Op::LdcW(index) => Ok(Op::LdcW(*index)),
            Op::Iload(local) => Ok(Op::Iload(*local)),
            Op::Aload(local) => Ok(Op::Aload(*local)),
            Op::Istore(local) => Ok(Op::Istore(*local)),
            Op::Astore(local) => Ok(Op::Astore(*local)),
            Op::Iaload => Ok(Op::Iaload),
            Op::Iastore => Ok(Op::Iastore),
            Op::Stack(stack_move) => Ok(Op::Stack(*stack_move)),
            Op::Iadd => Ok(Op::Iadd),
            Op::Isub => Ok(Op::Isub),
            Op::Imul => Ok(Op::Imul),
            Op::Idiv => Ok(Op::Idiv),
            Op::Irem => Ok(Op::Irem),
            Op::Ineg => Ok(Op::Ineg),
            Op::Ishl => Ok(Op::Ishl),
            Op::Ishr => Ok(Op::Ishr),
            Op::Iushr => Ok(Op::Iushr),
            Op::Iand => Ok(Op::Iand),
            Op::Ior => Ok(Op::Ior),
            Op::Ixor => Ok(Op::Ixor),
            Op::Iinc(local, step) => Ok(Op::Iinc(*local, *step)),
            Op::I2b => Ok(Op::I2b),
            Op::I2c => Ok(Op::I2c),
            Op::I2s => Ok(Op::I2s),
            Op::If(cmp, to) => Ok(Op::If(*cmp, *to)),
            Op::IfIcmp(cmp, to) => Ok(Op::IfIcmp(*cmp, *to)),
            Op::IfAcmpeq(to) => Ok(Op::IfAcmpeq(*to)),
            Op::IfAcmpne(to) => Ok(Op::IfAcmpne(*to)),
            Op::Ifnull(to) => Ok(Op::Ifnull(*to)),
            Op::Ifnonnull(to) => Ok(Op::Ifnonnull(*to)),
            Op::Goto(to) => Ok(Op::Goto(*to)),
            Op::GotoW(to) => Ok(Op::GotoW(*to)),
            Op::Tableswitch {
                otherwise,
                low,
                targets,
            } => Ok(Op::Tableswitch {
                otherwise: *otherwise,
                low: *low,
                targets: Rows::from_slice(alloc, targets.as_slice())?,
            }),
            Op::Lookupswitch { otherwise, cases } => Ok(Op::Lookupswitch {
                otherwise: *otherwise,
                cases: Rows::from_slice(alloc, cases.as_slice())?,
            }),
            Op::Ireturn => Ok(Op::Ireturn),
            Op::Areturn => Ok(Op::Areturn),
            Op::Return => Ok(Op::Return),
            Op::Getstatic(index) => Ok(Op::Getstatic(*index)),
            Op::Putstatic(index) => Ok(Op::Putstatic(*index)),
            Op::Getfield(index) => Ok(Op::Getfield(*index)),
            Op::Putfield(index) => Ok(Op::Putfield(*index)),
            Op::Invokevirtual(index) => Ok(Op::Invokevirtual(*index)),
            Op::Invokespecial(index) => Ok(Op::Invokespecial(*index)),
            Op::Invokestatic(index) => Ok(Op::Invokestatic(*index)),
            Op::New(index) => Ok(Op::New(*index)),
            Op::Newarray => Ok(Op::Newarray),
            Op::Arraylength => Ok(Op::Arraylength),
            Op::Athrow => Ok(Op::Athrow),
            Op::Monitorenter => Ok(Op::Monitorenter),
            Op::Monitorexit => Ok(Op::Monitorexit),
        }
    }
}

/// An instruction at its place.
#[derive(Debug, Drop)]
pub struct Insn {
    pub pc: u32,
    /// The pc of the instruction that follows, or the length of the code.
    pub next: u32,
    pub op: Op,
}
