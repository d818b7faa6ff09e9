//! Numbers of a class file, the high byte first (JVMS 4, "u1, u2, u4"), behind the bytes so far.

ghost use Rattle.std.specs.Prelude.{◌≡◌, ◌<◌, ◌^◌, ◌++◌, length, OnOk};
ghost use Rattle.jvm_types.specs.Numbers.{u1, u2, u4, u8, s4};
ghost use Rattle.class_writer.specs.Writing.{Writes};

use crate::error::WriteError;
use byteorder::{BigEndian, ByteOrder};
use jvm_types::Bytes;
use std::alloc::AllocError;

pub fn write_u1(number: u8, out: &mut Bytes) -> Result<(), AllocError>
    ensures { OnOk result (out.new ≡ out.old ++ u1 number) }
{
    out.push(number)
}

pub fn write_u2(number: u16, out: &mut Bytes) -> Result<(), AllocError>
    ensures { OnOk result (out.new ≡ out.old ++ u2 number) }
{
    let mut bytes = [0; 2];
    BigEndian::write_u16(&mut bytes, number);
    out.extend_from_slice(&bytes)
}

pub fn write_u4(number: u32, out: &mut Bytes) -> Result<(), AllocError>
    ensures { OnOk result (out.new ≡ out.old ++ u4 number) }
{
    let mut bytes = [0; 4];
    BigEndian::write_u32(&mut bytes, number);
    out.extend_from_slice(&bytes)
}

pub fn write_u8(number: u64, out: &mut Bytes) -> Result<(), AllocError>
    ensures { OnOk result (out.new ≡ out.old ++ u8 number) }
{
    let mut bytes = [0; 8];
    BigEndian::write_u64(&mut bytes, number);
    out.extend_from_slice(&bytes)
}

/// A signed number, by its two's complement.
pub fn write_s4(number: i32, out: &mut Bytes) -> Result<(), AllocError>
    ensures { OnOk result (out.new ≡ out.old ++ s4 number) }
{
    write_u4(number.cast_unsigned(), out)
}

/// A count or a length in two bytes.
pub fn write_len_u2(len: usize, out: &mut Bytes) -> Result<(), WriteError>
    ensures { Writes (len < 2 ^ 16) (len < 2 ^ 16) (u2 len) out.old out.new result }
{
    match u16::try_from(len) {
        Ok(len) => Ok(write_u2(len, out)?),
        Err(_) => Err(WriteError::TooLarge),
    }
}

/// Bytes, behind their count in four bytes.
pub fn write_run(bytes: &Bytes, out: &mut Bytes) -> Result<(), WriteError>
    ensures { Writes (length bytes.now < 2 ^ 32) (length bytes.now < 2 ^ 32)
        (u4 (length bytes.now) ++ bytes.now) out.old out.new result }
{
    match u32::try_from(bytes.len()) {
        Ok(len) => {
            write_u4(len, out)?;
            Ok(out.extend_from_slice(bytes.as_slice())?)
        }
        Err(_) => Err(WriteError::TooLarge),
    }
}
