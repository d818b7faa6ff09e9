//! Writing a class file (JVMS 4.1).

ghost use Rattle.std.specs.Prelude.{◌≡◌, Decides};
ghost use Rattle.jvm_types.specs.Spelling.{class_file};
ghost use Rattle.jvm_types.specs.ClassGrammar.{IsClass};
ghost use Rattle.class_writer.specs.Writing.{IsClassWritten, Answers};

use crate::error::WriteError;
use crate::parts::write_parts;
use crate::rules::keeps_rules;
use jvm_types::limits::MOST_FILE_BYTES;
use jvm_types::{Bytes, ClassFile};
use std::alloc::Global;

/// Whether a class with this spelling is one of the class grammar.
fn is_class(bytes: &[u8], c: &ClassFile) -> bool
    requires written { IsClassWritten c.now }
    requires spelled { bytes.now ≡ class_file c.now }
    ensures { Decides result (IsClass c.now) }
{
    bytes.len() <= MOST_FILE_BYTES && keeps_rules(c)
}

/// The bytes that spell `c` (JVMS 4.1). Reading them gives `c` again, and they are the only ones.
///
/// Errors: `TooLarge` where a count or a length doesn't fit the field that states it; `NoSpelling`
/// where all fit and no bytes spell `c`, because `c` breaks a rule of the class grammar or its
/// bytes would be more than 1,048,576; `Memory` where memory runs out.
pub fn write_class(alloc: Global, c: &ClassFile) -> Result<Bytes, WriteError>
    ensures { Answers c.now result }
{
    let mut bytes = Bytes::new(alloc);
    write_parts(alloc, c, &mut bytes)?;
    if is_class(bytes.as_slice(), c) {
        Ok(bytes)
    } else {
        Err(WriteError::NoSpelling)
    }
}
