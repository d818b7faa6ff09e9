//! Parts of a text.

ghost use Rattle.std.specs.Prelude.{◌≡◌, IfOk, [], bytes_eq, drop, length, take};
ghost use Rattle.outcome_texts.specs.Expected.{is_front_of as the_front_test};
ghost use Rattle.outcome_texts.specs.TextParts.{parts_from};

use jvm_types::{Bytes, Rows};
use std::alloc::{AllocError, Global};

/// The parts of a text, with a byte between them.
pub fn parts_between(alloc: Global, between: u8, text: &[u8]) -> Result<Rows<Bytes>, AllocError>
    ensures { IfOk result (λ parts. parts ≡ parts_from between [] text.now) }
{
    let mut parts = Rows::new(alloc);
    let mut part = Bytes::new(alloc);
    for c in text {
        if *c == between {
            parts.push(part)?;
            part = Bytes::new(alloc);
        } else {
            part.push(*c)?;
        }
    }
    parts.push(part)?;
    Ok(parts)
}

/// The first so many bytes.
pub(crate) fn front(text: &[u8], count: usize) -> &[u8]
    ensures { result.now ≡ take count text.now }
{
    if count < text.len() {
        &text[..count]
    } else {
        text
    }
}

/// The bytes behind the first so many.
pub(crate) fn behind(text: &[u8], count: usize) -> &[u8]
    ensures { result.now ≡ drop count text.now }
{
    if count < text.len() {
        &text[count..]
    } else {
        &[]
    }
}

fn is_text(text: &[u8], other: &[u8]) -> bool
    ensures { result ≡ bytes_eq text.now other.now }
{
    text == other
}

/// Whether a text begins with another.
pub(crate) fn begins_with(start: &[u8], text: &[u8]) -> bool
    ensures { result ≡ the_front_test start.now text.now }
{
    is_text(front(text, start.len()), start)
}
