//! Classes by their names.

ghost use Rattle.std.specs.Prelude.{◌≡◌, ◌≤◌, length, IfOk};
ghost use Rattle.jvm_types.specs.ClassNames.{class_number as number_of, named_class};
ghost use Rattle.descriptors.specs.NameTables.{names_in};

use crate::name_table::{NameTable, put_built_in, put_files};
use jvm_types::Rows;
use jvm_types::class_numbers::SYSTEM_CLASS;
use jvm_types::limits::MOST_FILES;
use std::alloc::{AllocError, Global};
use std::collections::BTreeMap;
use std::marker::Model;

/// The class that has no objects, and so no number.
const SYSTEM_NAME: &[u8] = b"java/lang/System";

/// The number of each class of a program, by its name. Contracts see it as the names of the classes
/// of the files, in order.
#[derive(Drop)]
pub struct ClassNumbers<'a> {
    /// The names of the classes of the files.
    names: Rows<&'a [u8]>,
    /// The built-in classes too.
    numbers: NameTable<'a>,
}

impl<'a> Model for ClassNumbers<'a> {
    ghost use Rattle.std.specs.Prelude.{ℕ, List};
    ghost use Rattle.descriptors.specs.NameTables.{IsNameTable, names_in};

    ghost Value = { List (List ℕ) };

    ghost view = { λ c. names_in c.names };

    ghost invariant = { λ c. IsNameTable (names_in c.names) c.numbers };
}

impl<'a> ClassNumbers<'a> {
    /// The numbers of the built-in classes, and of the classes of files with these names. Of two
    /// files with one name the first counts.
    pub fn of(alloc: Global, names: Rows<&'a [u8]>) -> Result<Self, AllocError>
        requires { length names ≤ MOST_FILES }
        ensures { IfOk result (λ c. c ≡ names_in names.entry) }
    {
        let mut numbers = BTreeMap::new(alloc);
        put_files(&mut numbers, names.as_slice())?;
        put_built_in(&mut numbers)?;
        Ok(ClassNumbers { names, numbers })
    }

    /// The number of the class with this name.
    pub fn number(&self, name: &[u8]) -> Option<u16>
        ensures { result ≡ number_of self.now name.now }
    {
        self.numbers.get(name).copied()
    }

    /// The same, where 0 stands for `java/lang/System`, which has no number.
    pub fn named(&self, name: &[u8]) -> Option<u16>
        ensures { result ≡ named_class self.now name.now }
    {
        if name == SYSTEM_NAME {
            Some(SYSTEM_CLASS)
        } else {
            self.number(name)
        }
    }
}
