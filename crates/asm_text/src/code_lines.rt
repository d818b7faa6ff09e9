//! The lines of the code of a method (JVMS 6.5).

ghost use Rattle.std.specs.Prelude.{◌≡◌, ◌≤◌, ◌^◌, ◌++◌, List, [], ℕ, map, codes, slice_index_or};
ghost use Rattle.std.specs.Prelude.{OnOk, string_bytes, IfOk};
ghost use Rattle.std.specs.List.{flat_map, list_all};
ghost use Rattle.jvm_types.specs.CodeGrammar.{IsCode, padding_size};
ghost use Rattle.jvm_types.specs.declared.code.Op.TheVariants.{Iinc, Tableswitch, Lookupswitch};
ghost use Rattle.mnemonics.specs.Mnemonics.{mnemonic};
ghost use Rattle.asm_text.specs.Lines.{Number, line_text, text_of, values_text};
ghost use Rattle.asm_text.specs.CodeLines.{are_zeros, bytes_line, case_values, code_lines};
ghost use Rattle.asm_text.specs.CodeLines.{high_of, insn_line, is_padded, name_or_empty};
ghost use Rattle.asm_text.specs.CodeLines.{names_local, op_line, operands, values_of};
ghost use Rattle.asm_text.specs.Steps.{AreInsns};

use crate::lines::{write_hex, write_number, write_signed};
use code_decode::{CodeError, decode};
use jvm_types::{Bytes, Case, Insn, Op, Rows};
use mnemonics::mnemonic;
use std::alloc::{AllocError, Global};

/// The byte at a place, or 0 where there are not so many.
fn byte_at(bytes: &[u8], at: usize) -> u8
    ensures { result ≡ slice_index_or bytes.now at 0 }
{
    match bytes.get(at) {
        Some(byte) => *byte,
        None => 0,
    }
}

/// Whether so many bytes from a place on are 0.
fn are_zeros(bytes: &[u8], at: usize, count: usize) -> bool
    requires few { count ≤ 3 }
    requires low { at ≤ 2 ^ 32 }
    ensures { result ≡ are_zeros bytes.now at count }
{
    match count {
        0 => true,
        1 => byte_at(bytes, at) == 0,
        2 => byte_at(bytes, at) == 0 && byte_at(bytes, at + 1) == 0,
        _ => {
            byte_at(bytes, at) == 0 && byte_at(bytes, at + 1) == 0 && byte_at(bytes, at + 2) == 0
        }
    }
}

/// How many bytes pad a switch.
fn padding_size(pc: u32) -> usize
    ensures is { result ≡ padding_size pc }
    ensures few { result ≤ 3 }
{
    3 - pc as usize % 4
}

/// Whether the bytes that pad a switch are 0.
fn is_padded(bytes: &[u8], pc: u32, op: &Op) -> bool
    ensures { result ≡ is_padded bytes.now pc op.now }
{
    match op {
        Op::Tableswitch { .. } | Op::Lookupswitch { .. } => {
            are_zeros(bytes, pc as usize + 1, padding_size(pc))
        }
        _ => true,
    }
}

fn are_padded(bytes: &[u8], insns: &[Insn]) -> bool
    ensures { result ≡ list_all (λ insn. is_padded bytes.now insn.pc insn.op) insns.now }
{
    insns.iter().all(|insn| is_padded(bytes, insn.pc, &insn.op))
}

fn write_targets(text: &mut String, targets: &[u32]) -> Result<(), AllocError>
    ensures { OnOk result
        (string_bytes text.new ≡ string_bytes text.old ++ values_text (map Number targets.now)) }
{
    for to in targets {
        write_number(text, *to)?;
    }
    Ok(())
}

/// The highest key of a `tableswitch`.
fn high_of(low: i32, targets: &[u32]) -> i64
    ensures { result ≡ high_of low targets.now }
{
    i64::from(low) + targets.len() as i64 - 1
}

/// The default target of a `tableswitch`, low and high, and the targets.
fn write_table(
    text: &mut String,
    otherwise: u32,
    low: i32,
    targets: &[u32],
) -> Result<(), AllocError>
    ensures { OnOk result (string_bytes text.new ≡ string_bytes text.old
        ++ values_text (operands (Tableswitch otherwise low targets.now))) }
{
    write_number(text, otherwise)?;
    write_signed(text, i64::from(low))?;
    write_signed(text, high_of(low, targets))?;
    write_targets(text, targets)
}

fn write_case(text: &mut String, case: Case) -> Result<(), AllocError>
    ensures { OnOk result
        (string_bytes text.new ≡ string_bytes text.old ++ values_text (case_values case)) }
{
    write_signed(text, i64::from(case.key))?;
    write_number(text, case.target)
}

fn write_cases(text: &mut String, cases: &[Case]) -> Result<(), AllocError>
    ensures { OnOk result (string_bytes text.new
        ≡ string_bytes text.old ++ values_text (flat_map case_values cases.now)) }
{
    for case in cases {
        write_case(text, *case)?;
    }
    Ok(())
}

/// The default target of a `lookupswitch`, and the pairs.
fn write_lookup(text: &mut String, otherwise: u32, cases: &[Case]) -> Result<(), AllocError>
    ensures { OnOk result (string_bytes text.new
        ≡ string_bytes text.old ++ values_text (operands (Lookupswitch otherwise cases.now))) }
{
    write_number(text, otherwise)?;
    write_cases(text, cases)
}

/// The local of an `iinc`, and what is added to it.
fn write_step(text: &mut String, local: u16, step: i32) -> Result<(), AllocError>
    ensures { OnOk result (string_bytes text.new
        ≡ string_bytes text.old ++ values_text (operands (Iinc local step))) }
{
    write_number(text, u32::from(local))?;
    write_signed(text, i64::from(step))
}

/// The operands of an instruction.
fn write_operands(text: &mut String, op: &Op) -> Result<(), AllocError>
    ensures { OnOk result
        (string_bytes text.new ≡ string_bytes text.old ++ values_text (operands op.now)) }
{
    match op {
        Op::Bipush(n) | Op::Sipush(n) => write_signed(text, i64::from(*n)),
        Op::Ldc(i)
        | Op::LdcW(i)
        | Op::Iload(i)
        | Op::Aload(i)
        | Op::Istore(i)
        | Op::Astore(i)
        | Op::Getstatic(i)
        | Op::Putstatic(i)
        | Op::Getfield(i)
        | Op::Putfield(i)
        | Op::Invokevirtual(i)
        | Op::Invokespecial(i)
        | Op::Invokestatic(i)
        | Op::New(i) => write_number(text, u32::from(*i)),
        Op::Iinc(local, step) => write_step(text, *local, *step),
        Op::If(_, to)
        | Op::IfIcmp(_, to)
        | Op::IfAcmpeq(to)
        | Op::IfAcmpne(to)
        | Op::Ifnull(to)
        | Op::Ifnonnull(to)
        | Op::Goto(to)
        | Op::GotoW(to) => write_number(text, *to),
        Op::Tableswitch {
            otherwise,
            low,
            targets,
        } => write_table(text, *otherwise, *low, targets.as_slice()),
        Op::Lookupswitch { otherwise, cases } => write_lookup(text, *otherwise, cases.as_slice()),
        Op::Newarray => write_number(text, 10),
        _ => Ok(()),
    }
}

/// Whether the mnemonic of an opcode names the local.
fn names_local(opcode: u8) -> bool
    ensures { result ≡ names_local opcode }
{
    matches!(opcode, 0x1a..=0x2d | 0x3b..=0x4e)
}

pub fn name_of(opcode: u8) -> &'static str
    ensures { result.now ≡ name_or_empty (mnemonic opcode) }
{
    match mnemonic(opcode) {
        Some(name) => name,
        None => "",
    }
}

fn write_values(text: &mut String, opcode: u8, op: &Op) -> Result<(), AllocError>
    ensures { OnOk result
        (string_bytes text.new ≡ string_bytes text.old ++ values_text (values_of opcode op.now)) }
{
    if names_local(opcode) {
        Ok(())
    } else {
        write_operands(text, op)
    }
}

fn write_op(text: &mut String, opcode: u8, op: &Op) -> Result<(), AllocError>
    ensures { OnOk result
        (string_bytes text.new ≡ string_bytes text.old ++ line_text (op_line opcode op.now)) }
{
    text.push_str(name_of(opcode))?;
    write_values(text, opcode, op)?;
    text.push_str("\n")
}

fn write_insns(text: &mut String, bytes: &[u8], insns: &[Insn]) -> Result<(), AllocError>
    ensures { OnOk result (string_bytes text.new
        ≡ string_bytes text.old ++ text_of (map (insn_line bytes.now) insns.now)) }
{
    for insn in insns {
        write_op(text, byte_at(bytes, insn.pc as usize), &insn.op)?;
    }
    Ok(())
}

pub fn write_bytes(text: &mut String, bytes: &[u8]) -> Result<(), AllocError>
    ensures { OnOk result
        (string_bytes text.new ≡ string_bytes text.old ++ line_text (bytes_line bytes.now)) }
{
    text.push_str("bytes")?;
    write_hex(text, bytes)?;
    text.push_str("\n")
}

/// The instructions of a code, or `None` where a byte that pads a switch isn't 0.
#[tactic(auto, using(crate::proofs::ListedCode::are_read, crate::proofs::ListedCode::by_padding))]
fn padded(bytes: &[u8], insns: Rows<Insn>) -> Option<Rows<Insn>>
    requires { IsCode bytes.now [] insns }
    ensures { AreInsns bytes.now result }
{
    if are_padded(bytes, insns.as_slice()) {
        Some(insns)
    } else {
        None
    }
}

/// The instructions that are listed, or `None` where the bytes are.
#[tactic(auto, using(crate::proofs::ListedCode::by_fault))]
fn listed_insns(alloc: Global, code: &Bytes) -> Result<Option<Rows<Insn>>, AllocError>
    ensures { IfOk result (λ found. AreInsns code.now found) }
{
    match decode(alloc, code, &Rows::new(alloc)) {
        Ok(insns) => Ok(padded(code.as_slice(), insns)),
        Err(CodeError::Refused(_, _)) => Ok(None),
        Err(CodeError::Memory) => Err(AllocError),
    }
}

/// The lines of the code of a method.
#[tactic(auto, using(crate::proofs::ListedCode::insn_lines))]
pub fn write_code(text: &mut String, alloc: Global, code: &Bytes) -> Result<(), AllocError>
    ensures { OnOk result
        (string_bytes text.new ≡ string_bytes text.old ++ text_of (code_lines code.now)) }
{
    match listed_insns(alloc, code)? {
        Some(insns) => write_insns(text, code.as_slice(), insns.as_slice()),
        None => write_bytes(text, code.as_slice()),
    }
}
