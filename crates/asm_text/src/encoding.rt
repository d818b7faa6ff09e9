//! The bytes of an instruction by its line (JVMS 6.5).

ghost use Rattle.std.specs.Prelude.{◌≡◌, ◌++◌, ◌∷◌, true, length, OnOk};
ghost use Rattle.jvm_types.specs.Numbers.{u4};
ghost use Rattle.asm_text.specs.Words.{small};
ghost use Rattle.jvm_types.specs.CodeGrammar.{padding_size};
ghost use Rattle.asm_text.specs.Encoding.{bounds_bytes, encoded, key_or_way, low1, low2, low4};
ghost use Rattle.asm_text.specs.Encoding.{operand_bytes, pair_ways, shape_bytes, way, ways};
ghost use Rattle.asm_text.specs.Encoding.{zero_bytes};

use crate::shapes::{Shape, is_target, shape_at};
use byteorder::{BigEndian, ByteOrder};
use jvm_types::Bytes;
use std::alloc::AllocError;

#[tactic(auto, unfolding(crate::specs::Encoding::low1))]
fn put_low1(code: &mut Bytes, n: i64) -> Result<(), AllocError>
    ensures { OnOk result (code.new ≡ code.old ++ low1 n) }
{
    code.push((n.cast_unsigned() % 256) as u8)
}

#[tactic(auto, unfolding(crate::specs::Encoding::low2))]
fn put_low2(code: &mut Bytes, n: i64) -> Result<(), AllocError>
    ensures { OnOk result (code.new ≡ code.old ++ low2 n) }
{
    let mut bytes = [0; 2];
    BigEndian::write_u16(&mut bytes, (n.cast_unsigned() % 65536) as u16);
    code.extend_from_slice(&bytes)
}

fn put_u4(code: &mut Bytes, n: u32) -> Result<(), AllocError>
    ensures { OnOk result (code.new ≡ code.old ++ u4 n) }
{
    let mut bytes = [0; 4];
    BigEndian::write_u32(&mut bytes, n);
    code.extend_from_slice(&bytes)
}

#[tactic(auto, unfolding(crate::specs::Encoding::low4))]
fn put_low4(code: &mut Bytes, n: i64) -> Result<(), AllocError>
    ensures { OnOk result (code.new ≡ code.old ++ low4 n) }
{
    put_u4(code, (n.cast_unsigned() % 4294967296) as u32)
}

fn put_two(code: &mut Bytes, first: i64, second: i64) -> Result<(), AllocError>
    ensures { OnOk result (code.new ≡ code.old ++ (low4 first ++ low4 second)) }
{
    put_low4(code, first)?;
    put_low4(code, second)
}

/// The way from a pc to a target.
fn way(pc: u16, to: i64) -> i64
    ensures { result ≡ way pc to }
{
    let to = if is_target(to) { to } else { 0 };
    to - i64::from(pc)
}

fn put_ways(code: &mut Bytes, pc: u16, targets: &[i64]) -> Result<(), AllocError>
    ensures { OnOk result (code.new ≡ code.old ++ ways pc targets.now) }
{
    for to in targets {
        put_low4(code, way(pc, *to))?;
    }
    Ok(())
}

fn key_or_way(pc: u16, is_key: bool, n: i64) -> i64
    ensures { result ≡ key_or_way pc is_key n }
{
    if is_key { n } else { way(pc, n) }
}

/// Keys and the ways to their targets, one after another.
fn put_pair_ways(code: &mut Bytes, pc: u16, pairs: &[i64]) -> Result<(), AllocError>
    ensures { OnOk result (code.new ≡ code.old ++ pair_ways pc true pairs.now) }
{
    let mut is_key = true;
    for n in pairs {
        put_low4(code, key_or_way(pc, is_key, *n))?;
        is_key = !is_key;
    }
    Ok(())
}

/// The bytes that pad a switch.
fn put_padding(code: &mut Bytes, pc: u16) -> Result<(), AllocError>
    ensures { OnOk result (code.new ≡ code.old ++ zero_bytes (padding_size pc)) }
{
    let size = 3 - usize::from(pc) % 4;
    code.extend_from_slice(&[0, 0, 0][..size])
}

fn put_bounds(code: &mut Bytes, pc: u16, low: i64, rest: &[i64]) -> Result<(), AllocError>
    ensures { OnOk result (code.new ≡ code.old ++ bounds_bytes pc (low ∷ rest.now)) }
{
    match rest {
        [high, targets @ ..] => {
            put_two(code, low, *high)?;
            put_ways(code, pc, targets)
        }
        [] => Ok(()),
    }
}

/// Low, high and the targets of a `tableswitch`.
fn put_all_bounds(code: &mut Bytes, pc: u16, bounds: &[i64]) -> Result<(), AllocError>
    ensures { OnOk result (code.new ≡ code.old ++ bounds_bytes pc bounds.now) }
{
    match bounds {
        [low, rest @ ..] => put_bounds(code, pc, *low, rest),
        [] => Ok(()),
    }
}

/// A `tableswitch` by its default target, and behind that low, high and the targets.
fn put_table(code: &mut Bytes, pc: u16, otherwise: i64, bounds: &[i64]) -> Result<(), AllocError>
    ensures { OnOk result
        (code.new ≡ code.old ++ operand_bytes pc Shape.Table (otherwise ∷ bounds.now)) }
{
    put_padding(code, pc)?;
    put_low4(code, way(pc, otherwise))?;
    put_all_bounds(code, pc, bounds)
}

fn put_lookup(code: &mut Bytes, pc: u16, otherwise: i64, pairs: &[i64]) -> Result<(), AllocError>
    ensures { OnOk result
        (code.new ≡ code.old ++ operand_bytes pc Shape.Lookup (otherwise ∷ pairs.now)) }
{
    put_padding(code, pc)?;
    put_low4(code, way(pc, otherwise))?;
    put_u4(code, (pairs.len() / 2 % 4294967296) as u32)?;
    put_pair_ways(code, pc, pairs)
}

fn put_operands(code: &mut Bytes, pc: u16, shape: Shape, operands: &[i64]) -> Result<(), AllocError>
    ensures { OnOk result (code.new ≡ code.old ++ operand_bytes pc shape operands.now) }
{
    match (shape, operands) {
        (Shape::Byte | Shape::SignedByte | Shape::IntArray, [n]) => put_low1(code, *n),
        (Shape::Short | Shape::SignedShort, [n]) => put_low2(code, *n),
        (Shape::Branch, [to]) => put_low2(code, way(pc, *to)),
        (Shape::WideBranch, [to]) => put_low4(code, way(pc, *to)),
        (Shape::LocalAndStep, [local, step]) => {
            put_low1(code, *local)?;
            put_low1(code, *step)
        }
        (Shape::Table, [otherwise, bounds @ ..]) => put_table(code, pc, *otherwise, bounds),
        (Shape::Lookup, [otherwise, pairs @ ..]) => put_lookup(code, pc, *otherwise, pairs),
        _ => Ok(()),
    }
}

fn put_shape(
    code: &mut Bytes,
    pc: u16,
    shape: Option<Shape>,
    operands: &[i64],
) -> Result<(), AllocError>
    ensures { OnOk result (code.new ≡ code.old ++ shape_bytes pc shape operands.now) }
{
    match shape {
        Some(shape) => put_operands(code, pc, shape, operands),
        None => Ok(()),
    }
}

fn end_pc(code: &Bytes) -> u16
    ensures { result ≡ small 65536 (length code.now) }
{
    let len = code.len();
    if len < 65536 { len as u16 } else { 0 }
}

/// Adds an instruction at the end of a code.
pub fn encode(code: &mut Bytes, opcode: u8, operands: &[i64]) -> Result<(), AllocError>
    ensures { OnOk result (code.new ≡ encoded code.old opcode operands.now) }
{
    let pc = end_pc(code);
    code.push(opcode)?;
    put_shape(code, pc, shape_at(opcode), operands)
}
