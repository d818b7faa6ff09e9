//! Class files for tests that are made of many equal parts.

use crate::bytes::bytes_of;
use lists::Bytes;
use std::alloc::{AllocError, Global};

fn push_u2(bytes: &mut Bytes, number: u16) -> Result<(), AllocError> {
    bytes.extend_from_slice(&number.to_be_bytes())
}

fn push_hex(alloc: Global, bytes: &mut Bytes, hex: &str) -> Result<(), AllocError> {
    bytes.extend_from_slice(bytes_of(alloc, hex)?.as_slice())
}

/// A text of two bytes, another one for each number below 40,000.
fn push_name(bytes: &mut Bytes, number: u16) -> Result<(), AllocError> {
    let name = [
        1,
        0,
        2,
        (number / 200 % 200) as u8 + 1,
        (number % 200) as u8 + 1,
    ];
    bytes.extend_from_slice(&name)
}

/// Class A with so many static fields, and no methods.
pub fn with_statics(alloc: Global, count: u16) -> Result<Bytes, AllocError> {
    let mut bytes = bytes_of(alloc, "cafebabe00000032")?;
    push_u2(&mut bytes, count.saturating_add(6))?;
    let start = "010001410700010100106a6176612f6c616e672f4f626a65637407000301000149";
    push_hex(alloc, &mut bytes, start)?;
    for number in 0..count {
        push_name(&mut bytes, number)?;
    }
    push_hex(alloc, &mut bytes, "0021000200040000")?;
    push_u2(&mut bytes, count)?;
    for number in 0..count {
        push_hex(alloc, &mut bytes, "0008")?;
        push_u2(&mut bytes, number.saturating_add(6))?;
        push_hex(alloc, &mut bytes, "00050000")?;
    }
    push_hex(alloc, &mut bytes, "00000000")?;
    Ok(bytes)
}
