//! Items of a class file: numbers (JVMS 4, "u1, u2, u4") and runs of bytes, from the front of a
//! slice.

ghost use Rattle.std.specs.Prelude.{◌≡◌, ◌+◌, ℕ, length, IfOk};
ghost use Rattle.jvm_types.specs.ReadingSteps.{u1_at, u2_at, u4_at, byte_run_at, fault_unless};
ghost use Rattle.class_reader.specs.Giving.{Gives, pair_at, long_at};

use byteorder::{BigEndian, ByteOrder};
use jvm_types::CRule;
use std::alloc::AllocError;

/// Why a step gave nothing.
#[derive(Clone, Copy, Debug, PartialEq, Eq)]
pub enum Stop {
    /// Memory ran out.
    Memory,
    /// A rule, and how many bytes are left from its place on.
    At(CRule, usize),
}

impl From<AllocError> for Stop {
    ghost use Rattle.std.specs.Prelude.{◌≡◌};
    ghost use Rattle.class_reader.specs.declared.items.Stop.TheVariants.{Memory};

    ghost from_gives = { λ _ e. e ≡ Memory };

    fn from(_error: AllocError) -> Stop {
        Stop::Memory
    }
}

/// A number of one byte, and the bytes after it.
#[tactic(auto, unfolding(jvm_types::specs::ReadingSteps::u1_at))]
pub fn read_u1(bytes: &[u8]) -> Result<(u8, &[u8]), Stop>
    ensures { Gives (λ x. (x.0, x.1.now)) result (u1_at bytes.now) }
{
    match bytes {
        [number, rest @ ..] => Ok((*number, rest)),
        [] => Err(Stop::At(CRule::C3, bytes.len())),
    }
}

/// A number of two bytes, and the bytes after it.
#[tactic(auto, unfolding(jvm_types::specs::ReadingSteps::u2_at))]
pub fn read_u2(bytes: &[u8]) -> Result<(u16, &[u8]), Stop>
    ensures { Gives (λ x. (x.0, x.1.now)) result (u2_at bytes.now) }
{
    match bytes {
        [high, low, rest @ ..] => Ok((BigEndian::read_u16(&[*high, *low]), rest)),
        _ => Err(Stop::At(CRule::C3, bytes.len())),
    }
}

/// A number of four bytes, and the bytes after it.
#[tactic(auto, unfolding(jvm_types::specs::ReadingSteps::u4_at))]
pub fn read_u4(bytes: &[u8]) -> Result<(u32, &[u8]), Stop>
    ensures { Gives (λ x. (x.0, x.1.now)) result (u4_at bytes.now) }
{
    match bytes {
        [a, b, c, d, rest @ ..] => Ok((BigEndian::read_u32(&[*a, *b, *c, *d]), rest)),
        _ => Err(Stop::At(CRule::C3, bytes.len())),
    }
}

/// Two numbers of two bytes.
pub fn read_pair(bytes: &[u8]) -> Result<((u16, u16), &[u8]), Stop>
    ensures { Gives (λ x. (x.0, x.1.now)) result (pair_at bytes.now) }
{
    let (first, rest) = read_u2(bytes)?;
    let (second, rest) = read_u2(rest)?;
    Ok(((first, second), rest))
}

/// A number of eight bytes, as two of four (JVMS 4.4.5).
pub fn read_long(bytes: &[u8]) -> Result<(u64, &[u8]), Stop>
    ensures { Gives (λ x. (x.0, x.1.now)) result (long_at bytes.now) }
{
    let (high, rest) = read_u4(bytes)?;
    let (low, rest) = read_u4(rest)?;
    Ok((u64::from(high) << 32 | u64::from(low), rest))
}

/// `count` bytes, and the bytes after them.
#[tactic(auto, unfolding(jvm_types::specs::ReadingSteps::byte_run_at))]
pub fn read_run(count: usize, bytes: &[u8]) -> Result<(&[u8], &[u8]), Stop>
    ensures gives { Gives (λ x. (x.0.now, x.1.now)) result (byte_run_at count bytes.now) }
    ensures parts { IfOk result (λ x. length x.0.now + length x.1.now ≡ length bytes.now) }
{
    if bytes.len() < count {
        return Err(Stop::At(CRule::C3, bytes.len()));
    }
    Ok(bytes.split_at(count))
}

/// The rule at its place, unless the condition is met.
pub fn check(is_met: bool, rule: CRule, left: usize) -> Result<(), Stop>
    ensures { Gives (λ x. x) result (fault_unless is_met rule left) }
{
    if is_met {
        Ok(())
    } else {
        Err(Stop::At(rule, left))
    }
}
