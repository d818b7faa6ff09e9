//! Names of fields.

ghost use Rattle.std.specs.Prelude.{◌≡◌, ◌++◌, List, map, IfOk, OnOk};
ghost use Rattle.std.specs.List.{AllZip};
ghost use Rattle.jvm_types.specs.ClassGrammar.{Spells};
ghost use Rattle.jvm_types.specs.ClassNames.{text_at};
ghost use Rattle.jvm_types.specs.declared.class_file.ClassFile.{ClassFile as Class};
ghost use Rattle.field_names.specs.FieldNames.{field_names_in, all_field_names, NamesAreInOrder};

use class_reader::{ReadError, read_class};
use constant_pools::pool_texts::text_at;
use jvm_types::{Bytes, Constant, Member, Rows};
use std::alloc::{AllocError, Global};

/// Adds the names of some fields.
fn add_names(
    names: &mut Rows<Bytes>,
    alloc: Global,
    constants: &Rows<Constant>,
    fields: &[Member],
) -> Result<(), AllocError>
    ensures { OnOk result
        (names.new ≡ names.old ++ map (λ m. text_at constants.now m.name) fields.now) }
{
    for field in fields {
        names.push(Bytes::from_slice(alloc, text_at(constants, field.name))?)?;
    }
    Ok(())
}

/// Adds the names of the fields of the class that a file spells; none where it spells no class.
fn add_file(names: &mut Rows<Bytes>, alloc: Global, file: &Bytes) -> Result<(), AllocError>
    ensures { OnOk result
        ((c : Class) → Spells file.now c → names.new ≡ names.old ++ field_names_in c) }
{
    match read_class(alloc, file) {
        Ok(class) => add_names(names, alloc, &class.constants, class.fields.as_slice()),
        Err(ReadError::Memory) => Err(AllocError),
        Err(ReadError::Refused(_, _)) => Ok(()),
    }
}

/// The names of the fields of the classes that some files spell, in the order of the files and of
/// their fields (JVMS 4.5): that in which the program that the files are linked to has its fields
/// (`names_are_in_order`).
pub fn field_names(alloc: Global, files: &Rows<Bytes>) -> Result<Rows<Bytes>, AllocError>
    ensures { IfOk result (λ names.
        (classes : List Class) → AllZip Spells files.now classes
        → names ≡ all_field_names classes) }
{
    let mut names = Rows::new(alloc);
    for file in files.as_slice() {
        add_file(&mut names, alloc, file)?;
    }
    Ok(names)
}

/// Law: a program that files are linked to has the fields of their classes in the order in which
/// their names stand.
pub fn names_are_in_order()
    ensures { NamesAreInOrder }
{}
