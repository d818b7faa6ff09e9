//! The classes and members of some files, by their names.

ghost use Rattle.std.specs.Prelude.{◌≡◌, List, Some, slice_get, IfOk};
ghost use Rattle.jvm_types.specs.Members.{Entry, look_up};
ghost use Rattle.jvm_types.specs.Linked.{scope_of};
ghost use Rattle.link_scope.specs.MemberTables.{HasEntries};
ghost use Rattle.link_scope.specs.Scoping.{file_text, IsFound, AreFiles};

use crate::file_scope::FileScope;
use crate::file_texts::FileTexts;
use crate::members::{Members, Sort};
use crate::table::Key;
use jvm_types::{ClassFile, Rows, Target};
use std::alloc::{AllocError, Global};
use std::marker::Model;

/// A field or method that a name names: the class that declares it, its flags, and what it is to an
/// instruction.
#[derive(Clone, Copy, Debug, PartialEq, Eq)]
pub struct Found {
    pub class: u16,
    pub flags: u16,
    pub target: Target,
}

/// The classes, fields and methods of some files and the built-in ones, by their names. Contracts
/// see it as the files, which are at most 64 classes.
#[derive(Drop)]
pub struct Scope<'a> {
    pub(crate) texts: FileTexts<'a>,
    pub(crate) fields: Members,
    pub(crate) methods: Members,
}

impl<'a> Model for Scope<'a> {
    ghost use Rattle.std.specs.Prelude.{List};
    ghost use Rattle.jvm_types.specs.declared.class_file.ClassFile.{ClassFile as File};

    ghost Value = { List File };

    ghost use Rattle.link_scope.specs.MemberTables.{AreScoped};

    ghost view = { λ s. s.texts.files };

    ghost invariant = { λ s. AreScoped s.texts.files s.texts.numbers s.fields s.methods };
}

/// The member of a class, or else of `Object`, with the name and the descriptor at two indices of
/// the pool of a file.
fn look_up(
    texts: &FileTexts,
    members: &Members,
    file: usize,
    class: u16,
    name: u16,
    descriptor: u16,
) -> Option<Found>
    ensures { (entries : List Entry) → HasEntries texts.now.numbers entries members.now.table
        → IsFound (file_text texts.now.files file name) result (look_up entries class
        (file_text texts.now.files file name) (file_text texts.now.files file descriptor)) }
{
    let key = Key {
        class,
        name: texts.number(file, name),
        descriptor: texts.number(file, descriptor),
    };
    members.find(key, texts.is_init(file, name))
}

impl<'a> Scope<'a> {
    /// Reads the names of the files. It takes time in proportion to the size of the files, times
    /// the logarithm of their number of names.
    pub fn of(alloc: Global, files: &'a Rows<ClassFile>) -> Result<Scope<'a>, AllocError>
        requires { AreFiles files.now }
        ensures { IfOk result (λ s. s ≡ files.now) }
    {
        let texts = FileTexts::of(alloc, files)?;
        let fields = Members::of(alloc, &texts, Sort::Fields)?;
        let methods = Members::of(alloc, &texts, Sort::Methods)?;
        Ok(Scope {
            texts,
            fields,
            methods,
        })
    }

    /// The files.
    pub fn files(&self) -> &Rows<ClassFile>
        ensures value { result.now ≡ self.now }
        ensures files { AreFiles self.now }
    {
        self.texts.files()
    }

    /// The file with a number, whose class is given.
    pub fn file<'s>(&'s self, number: usize, class: &'s ClassFile) -> FileScope<'s, 'a>
        requires { slice_get self.now number ≡ Some class.now }
        ensures { result ≡ record { files = self.now; number = number; class = class.now } }
    {
        FileScope::of(self, number, class)
    }

    /// The field of a class that two texts of a file name.
    pub(crate) fn find_field(
        &self,
        file: usize,
        class: u16,
        name: u16,
        descriptor: u16,
    ) -> Option<Found>
        ensures { IsFound (file_text self.now file name) result (look_up (scope_of self.now).fields
            class (file_text self.now file name) (file_text self.now file descriptor)) }
    {
        look_up(&self.texts, &self.fields, file, class, name, descriptor)
    }

    /// The method of a class that two texts of a file name.
    pub(crate) fn find_method(
        &self,
        file: usize,
        class: u16,
        name: u16,
        descriptor: u16,
    ) -> Option<Found>
        ensures { IsFound (file_text self.now file name) result (look_up (scope_of self.now).methods
            class (file_text self.now file name) (file_text self.now file descriptor)) }
    {
        look_up(&self.texts, &self.methods, file, class, name, descriptor)
    }
}
