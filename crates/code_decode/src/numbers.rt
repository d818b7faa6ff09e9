//! Numbers from the front of the bytes, and where offsets lead.

ghost use Rattle.std.specs.Prelude.{◌≡◌, ◌≤◌, length, take, drop, nat_abs};
ghost use Rattle.std.specs.Int.{w8, w16, cast_signed, from_be_bytes};
ghost use Rattle.jvm_types.specs.CodeFault.{s2_of, s4_of, landing};
ghost use Rattle.code_decode.specs.Decoding.{GivesNumber, first_of};

use crate::operands::Stop;
use jvm_types::KRule;

/// A number of one byte, or K2 where there is none.
pub fn read_u1(bytes: &[u8]) -> Result<u8, Stop>
    ensures { GivesNumber 1 (first_of bytes.now) bytes.now result }
{
    match bytes {
        [number, ..] => Ok(*number),
        [] => Err(Stop::Rule(KRule::K2)),
    }
}

/// A number of two bytes, or K2 where there are not so many.
pub fn read_u2(bytes: &[u8]) -> Result<u16, Stop>
    ensures { GivesNumber 2 (from_be_bytes w16 (take 2 bytes.now)) bytes.now result }
{
    match bytes {
        [high, low, ..] => Ok(u16::from_be_bytes([*high, *low])),
        _ => Err(Stop::Rule(KRule::K2)),
    }
}

/// A signed number of two bytes, or K2 where there are not so many.
pub fn read_s2(bytes: &[u8]) -> Result<i16, Stop>
    ensures { GivesNumber 2 (s2_of bytes.now) bytes.now result }
{
    match bytes {
        [high, low, ..] => Ok(i16::from_be_bytes([*high, *low])),
        _ => Err(Stop::Rule(KRule::K2)),
    }
}

/// A signed number of four bytes, or K2 where there are not so many.
pub fn read_s4(bytes: &[u8]) -> Result<i32, Stop>
    ensures { GivesNumber 4 (s4_of bytes.now) bytes.now result }
{
    match bytes {
        [a, b, c, d, ..] => Ok(i32::from_be_bytes([*a, *b, *c, *d])),
        _ => Err(Stop::Rule(KRule::K2)),
    }
}

/// The signed number of the four bytes at the front.
pub fn s4_of(bytes: &[u8]) -> i32
    requires { 4 ≤ length bytes.now }
    ensures { result ≡ s4_of bytes.now }
{
    match bytes {
        [a, b, c, d, ..] => i32::from_be_bytes([*a, *b, *c, *d]),
        _ => unreachable!(),
    }
}

/// Where an offset leads from a pc.
pub fn landing(pc: u16, way: i32) -> i64
    ensures { result ≡ landing pc way }
{
    i64::from(pc) + i64::from(way)
}

/// The same as a pc, which it is where it does not lie below 0.
pub fn pc_of(pc: u16, way: i32) -> u32
    ensures { result ≡ nat_abs (landing pc way) }
{
    landing(pc, way).unsigned_abs() as u32
}

/// The bytes behind the first `count`.
pub fn behind(count: usize, bytes: &[u8]) -> &[u8]
    ensures { result.now ≡ drop count bytes.now }
{
    if count <= bytes.len() {
        &bytes[count..]
    } else {
        &bytes[bytes.len()..]
    }
}
