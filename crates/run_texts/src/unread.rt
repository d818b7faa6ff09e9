//! The line of a file that can't be read.

ghost use Rattle.std.specs.Prelude.{◌≡◌, IfOk};
ghost use Rattle.run_texts.specs.Unread.{unread_line};

use jvm_types::Bytes;
use std::alloc::{AllocError, Global};

/// The line of a file that can't be read: `cannot read file I`, where I is its number, counted from
/// 0.
pub fn unread_file(alloc: Global, file: u16) -> Result<Bytes, AllocError>
    ensures { IfOk result (λ text. text ≡ unread_line file) }
{
    let mut line = String::new(alloc);
    writeln!(line, "cannot read file {file}")?;
    Bytes::from_slice(alloc, line.as_bytes())
}
