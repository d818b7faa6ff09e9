//! Texts of two digits for each byte as bytes.

use lists::Bytes;
use std::alloc::{AllocError, Global};

fn digit(code: u8) -> u8 {
    match code {
        b'0'..=b'9' => code - b'0',
        b'a'..=b'f' => code - b'a' + 10,
        _ => 0,
    }
}

/// The bytes of a text of two digits each.
pub fn bytes_of(alloc: Global, hex: &str) -> Result<Bytes, AllocError> {
    let mut bytes = Bytes::new(alloc);
    for pair in hex.as_bytes().chunks(2) {
        if let [high, low] = pair {
            bytes.push(digit(*high).wrapping_mul(16).wrapping_add(digit(*low)))?;
        }
    }
    Ok(bytes)
}

/// The bytes of such a text with some of them changed, each at its place.
pub fn changed(alloc: Global, hex: &str, changes: &[(usize, u8)]) -> Result<Bytes, AllocError> {
    let mut bytes = bytes_of(alloc, hex)?;
    for (at, byte) in changes {
        if *at < bytes.len() {
            bytes.set(*at, *byte);
        }
    }
    Ok(bytes)
}
