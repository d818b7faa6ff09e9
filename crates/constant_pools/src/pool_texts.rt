//! The texts that the entries of a constant pool name (JVMS 4.4.1, 4.4.7), and the names of classes
//! (JVMS 4.1).

ghost use Rattle.std.specs.Prelude.{◌≡◌, slice_get, IfOk, Some};
ghost use Rattle.jvm_types.specs.ClassNames.{entry_text, text_at, class_text_at, class_name};
ghost use Rattle.jvm_types.specs.ClassNames.{class_names};

use jvm_types::{Bytes, ClassFile, Constant, Rows};
use std::alloc::{AllocError, Global};

/// The text of an entry, and no bytes where it has none.
pub fn text_of(entry: &Constant) -> &[u8]
    ensures { result.now ≡ entry_text (Some entry.now) }
{
    match entry {
        Constant::Utf8(text) => text.as_slice(),
        _ => &[],
    }
}

/// The text at an index, and no bytes where there is none.
pub fn text_at(pool: &Rows<Constant>, index: u16) -> &[u8]
    ensures { result.now ≡ text_at pool.now index }
{
    match pool.get(usize::from(index)) {
        Some(entry) => text_of(entry),
        None => &[],
    }
}

/// The name of the class that the entry at an index names, and no bytes where it names none.
pub fn class_text_at(pool: &Rows<Constant>, index: u16) -> &[u8]
    ensures { result.now ≡ class_text_at pool.now index }
{
    match pool.get(usize::from(index)) {
        Some(Constant::Class(name)) => text_at(pool, *name),
        _ => &[],
    }
}

/// The own name of a class.
pub fn class_name(class: &ClassFile) -> &[u8]
    ensures { result.now ≡ class_name class.now }
{
    class_text_at(&class.constants, class.this_class)
}

/// The names of the classes of some files, in order.
pub fn class_names(alloc: Global, files: &[ClassFile]) -> Result<Rows<Bytes>, AllocError>
    ensures { IfOk result (λ names. names ≡ class_names files.now) }
{
    let mut names = Rows::new(alloc);
    for class in files {
        names.push(Bytes::from_slice(alloc, class_name(class))?)?;
    }
    Ok(names)
}
