//! The fields or the methods of some files and the built-in ones, by the numbers of their names.

ghost use Rattle.std.specs.Prelude.{◌≡◌, ◌+◌, ◌<◌, ◌^◌, List, [], ◌∷◌, length, is_some, slice_get};
ghost use Rattle.std.specs.Prelude.{Some, IfOk, OnOk};
ghost use Rattle.jvm_types.specs.ClassNames.{file_class as class_of_file};
ghost use Rattle.jvm_types.specs.Members.{Entry, member_in};
ghost use Rattle.link_scope.specs.Scoping.{file_text, pool_of_file, AreFiles};
ghost use Rattle.link_scope.specs.MemberTables.{members_of, target_of_sort, built_in, HasEntries};
ghost use Rattle.link_scope.specs.MemberTables.{Adds, AreRepeats, member_entry, class_entries};
ghost use Rattle.link_scope.specs.MemberTables.{AreBelow, AreMembers, found_in, in_flag_rows};

use crate::built_in;
use crate::file_texts::FileTexts;
use crate::scope::Found;
use crate::table::{Key, Table};
use jvm_types::class_numbers::{FIRST_FILE_CLASS, OBJECT_CLASS};
use jvm_types::limits::MOST_FILES;
use jvm_types::{ClassFile, Member, Rows, Target};
use std::alloc::{AllocError, Global};

/// Fields, or methods.
#[derive(Clone, Copy, Debug, PartialEq, Eq)]
pub enum Sort {
    Fields,
    Methods,
}

/// The members of one sort, with a row for each file: whether each of its members has the name and
/// the descriptor of one before it.
#[derive(Drop)]
pub struct Members {
    table: Table,
    repeated: Rows<Rows<bool>>,
}

impl Sort {
    /// The fields of a class, or its methods.
    fn members(self, class: &ClassFile) -> &Rows<Member>
        ensures { result.now ≡ members_of self class.now }
    {
        match self {
            Sort::Fields => &class.fields,
            Sort::Methods => &class.methods,
        }
    }

    /// What the member with a number is to an instruction.
    fn target(self, number: u32) -> Target
        ensures { result ≡ target_of_sort self number }
    {
        match self {
            Sort::Fields => Target::Field(number),
            Sort::Methods => Target::Method(number),
        }
    }

    /// Adds the members of the built-in classes.
    fn add_built_in(self, table: &mut Table, texts: &FileTexts) -> Result<(), AllocError>
        ensures { OnOk result (Adds texts.now.numbers table.old table.new (built_in self)) }
    {
        match self {
            Sort::Fields => built_in::add_fields(table, texts),
            Sort::Methods => built_in::add_methods(table, texts),
        }
    }
}

/// Adds a member of the class of a file, and answers whether the table had one of this class with
/// its name and descriptor.
fn add_member(
    table: &mut Table,
    texts: &FileTexts,
    file: u16,
    member: &Member,
    target: Target,
) -> Result<bool, AllocError>
    requires { file < MOST_FILES }
    ensures added { OnOk result (Adds texts.now.numbers table.old table.new
        (member_entry (pool_of_file texts.now.files file) file member.now target ∷ [])) }
    ensures had { IfOk result (λ had.
        (entries : List Entry) → HasEntries texts.now.numbers entries table.old
        → had
        ≡ is_some (member_in entries (class_of_file file)
        (file_text texts.now.files file member.now.name)
        (file_text texts.now.files file member.now.descriptor))) }
{
    let at = usize::from(file);
    let class = FIRST_FILE_CLASS + file;
    let key = Key {
        class,
        name: texts.number(at, member.name),
        descriptor: texts.number(at, member.descriptor),
    };
    let found = Found {
        class,
        flags: member.flags,
        target,
    };
    let had = table.add(key, found)?;
    Ok(had)
}

/// Adds the members of the class of a file, numbered from one on, and answers for each whether it
/// has the name and the descriptor of one before it.
fn add_members(
    alloc: Global,
    table: &mut Table,
    texts: &FileTexts,
    sort: Sort,
    file: u16,
    class: &ClassFile,
    first: u32,
) -> Result<Rows<bool>, AllocError>
    requires file { slice_get texts.now.files file ≡ Some class.now }
    requires few { file < MOST_FILES }
    requires fits { first + length (members_of sort class.now) < 2 ^ 32 }
    ensures added { OnOk result
        (Adds texts.now.numbers table.old table.new (class_entries sort file class.now first)) }
    ensures repeats { IfOk result (λ flags.
        (entries : List Entry) → HasEntries texts.now.numbers entries table.old
        → AreBelow (class_of_file file) entries
        → AreRepeats class.now.constants (members_of sort class.now) flags) }
{
    let mut flags = Rows::new(alloc);
    let mut number = first;
    for member in sort.members(class).as_slice() {
        let repeats = add_member(table, texts, file, member, sort.target(number))?;
        flags.push(repeats)?;
        number += 1;
    }
    Ok(flags)
}

impl Members {
    /// The members of the files and of the built-in classes.
    pub fn of(alloc: Global, texts: &FileTexts, sort: Sort) -> Result<Self, AllocError>
        requires { AreFiles texts.now.files }
        ensures { IfOk result (AreMembers sort texts.now.files texts.now.numbers) }
    {
        let mut table = Table::new(alloc);
        sort.add_built_in(&mut table, texts)?;
        let mut repeated = Rows::new(alloc);
        let mut number = 0;
        for (file, class) in texts.files().as_slice().iter().enumerate() {
            let flags = add_members(alloc, &mut table, texts, sort, file as u16, class, number)?;
            repeated.push(flags)?;
            number += sort.members(class).len() as u32;
        }
        Ok(Members { table, repeated })
    }

    /// The member with a key, or else that of `Object` with its name and descriptor, which no
    /// `<init>` is looked for in.
    pub fn find(&self, key: Key, is_init: bool) -> Option<Found>
        ensures { result ≡ found_in self.now.table key is_init }
    {
        match self.table.get(key) {
            Some(found) => Some(found),
            None if is_init => None,
            None => self.table.get(Key {
                class: OBJECT_CLASS,
                ..key
            }),
        }
    }

    /// Whether the member of a file with a number has the name and the descriptor of one before it.
    pub fn repeats(&self, file: usize, number: usize) -> bool
        ensures { result ≡ in_flag_rows self.now.repeated file number }
    {
        let row = self.repeated.get(file);
        row.and_then(|row| row.get(number))
            .copied()
            .unwrap_or(false)
    }
}
