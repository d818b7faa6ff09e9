//! Reading the entries of the constant pool (JVMS 4.4).

ghost use Rattle.std.specs.Prelude.{◌≡◌, ◌+◌, ◌<◌, ◌^◌, true, length, Decides};
ghost use Rattle.jvm_types.specs.ClassGrammar.{IsUtf8Byte};
ghost use Rattle.jvm_types.specs.ReadingPool.{text_wanted, utf8_at, tagged_at, constant_at};
ghost use Rattle.jvm_types.specs.ReadingPool.{entries_at};
ghost use Rattle.class_reader.specs.Giving.{Gives, entry_at};

use crate::items::{Stop, read_long, read_pair, read_run, read_u1, read_u2, read_u4};
use constant_pools::index_kinds::is_wide;
use jvm_types::class_file::TEXT_BYTES_END;
use jvm_types::{Bytes, CRule, Constant, Rows};
use std::alloc::Global;

/// Whether a text may have this byte (JVMS 4.4.7).
fn is_utf8_byte(byte: u8) -> bool
    ensures { Decides result (IsUtf8Byte byte) }
{
    0 < byte && byte < TEXT_BYTES_END
}

/// Looks at the bytes of a text, behind which so many are left.
fn check_text(text: &[u8], behind: usize) -> Result<(), Stop>
    requires { length text.now + behind < 2 ^ 64 }
    ensures { Gives (λ x. x) result (text_wanted text.now behind) }
{
    for (i, byte) in text.iter().enumerate() {
        if !is_utf8_byte(*byte) {
            return Err(Stop::At(CRule::C6, text.len() - i + behind));
        }
    }
    Ok(())
}

#[tactic(auto, unfolding(jvm_types::specs::ReadingPool::utf8_at))]
fn read_text(alloc: Global, bytes: &[u8]) -> Result<(Constant, &[u8]), Stop>
    ensures { Gives (λ x. (x.0, x.1.now)) result (utf8_at bytes.now) }
{
    let (len, rest) = read_u2(bytes)?;
    let (text, rest) = read_run(usize::from(len), rest)?;
    check_text(text, rest.len())?;
    Ok((Constant::Utf8(Bytes::from_slice(alloc, text)?), rest))
}

/// What stands behind a tag. From the tag on `at_tag` bytes are left.
#[tactic(auto, unfolding(jvm_types::specs::ReadingPool::tagged_at, jvm_types::specs::ReadingPool::one_at, jvm_types::specs::ReadingPool::two_at, jvm_types::specs::ReadingPool::word_entry_at, jvm_types::specs::ReadingPool::wide_at))]
fn read_tagged(
    alloc: Global,
    tag: u8,
    at_tag: usize,
    bytes: &[u8],
) -> Result<(Constant, &[u8]), Stop>
    ensures { Gives (λ x. (x.0, x.1.now)) result (tagged_at tag at_tag bytes.now) }
{
    match tag {
        1 => read_text(alloc, bytes),
        3 => {
            let (number, rest) = read_u4(bytes)?;
            Ok((Constant::Integer(number.cast_signed()), rest))
        }
        4 => {
            let (number, rest) = read_u4(bytes)?;
            Ok((Constant::Float(number), rest))
        }
        5 => {
            let (number, rest) = read_long(bytes)?;
            Ok((Constant::Long(number), rest))
        }
        6 => {
            let (number, rest) = read_long(bytes)?;
            Ok((Constant::Double(number), rest))
        }
        7 => {
            let (name, rest) = read_u2(bytes)?;
            Ok((Constant::Class(name), rest))
        }
        8 => {
            let (string, rest) = read_u2(bytes)?;
            Ok((Constant::Text(string), rest))
        }
        9 => {
            let ((class, member), rest) = read_pair(bytes)?;
            Ok((Constant::Field(class, member), rest))
        }
        10 => {
            let ((class, member), rest) = read_pair(bytes)?;
            Ok((Constant::Method(class, member), rest))
        }
        11 => {
            let ((class, member), rest) = read_pair(bytes)?;
            Ok((Constant::InterfaceMethod(class, member), rest))
        }
        12 => {
            let ((name, descriptor), rest) = read_pair(bytes)?;
            Ok((Constant::NameAndType(name, descriptor), rest))
        }
        _ => Err(Stop::At(CRule::C4, at_tag)),
    }
}

#[tactic(auto, unfolding(jvm_types::specs::ReadingPool::constant_at))]
fn read_constant(alloc: Global, bytes: &[u8]) -> Result<(Constant, &[u8]), Stop>
    ensures { Gives (λ x. (x.0, x.1.now)) result (constant_at bytes.now) }
{
    let (tag, rest) = read_u1(bytes)?;
    read_tagged(alloc, tag, bytes.len(), rest)
}

/// What stands at an index: a gap where one is due.
fn read_entry(alloc: Global, is_gap_due: bool, bytes: &[u8]) -> Result<(Constant, &[u8]), Stop>
    ensures { Gives (λ x. (x.0, x.1.now)) result (entry_at is_gap_due bytes.now) }
{
    if is_gap_due {
        Ok((Constant::Gap, bytes))
    } else {
        read_constant(alloc, bytes)
    }
}

/// What stands at so many indices, the first of which is a gap.
pub fn read_entries(
    alloc: Global,
    count: u16,
    bytes: &[u8],
) -> Result<(Rows<Constant>, &[u8]), Stop>
    ensures { Gives (λ x. (x.0, x.1.now)) result (entries_at count true bytes.now) }
{
    let mut constants = Rows::new(alloc);
    let mut is_gap_due = true;
    let mut rest = bytes;
    for _ in 0..count {
        let (constant, after) = read_entry(alloc, is_gap_due, rest)?;
        is_gap_due = is_wide(&constant);
        constants.push(constant)?;
        rest = after;
    }
    Ok((constants, rest))
}
