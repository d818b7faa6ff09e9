//! The names of the classes of some files (JVMS 4.1).

ghost use Rattle.std.specs.Prelude.{◌≡◌, IfOk};
ghost use Rattle.jvm_types.specs.ClassNames.{class_names};
ghost use Rattle.descriptors.specs.NameTables.{names_in};

use constant_pools::pool_texts::class_name;
use jvm_types::{ClassFile, Rows};
use std::alloc::{AllocError, Global};

/// The names of the classes of some files, where they stand.
pub fn names_of(alloc: Global, files: &Rows<ClassFile>) -> Result<Rows<&[u8]>, AllocError>
    ensures { IfOk result (λ names. names_in names ≡ class_names files.now) }
{
    let mut names = Rows::new(alloc);
    for class in files.as_slice() {
        names.push(class_name(class))?;
    }
    Ok(names)
}
