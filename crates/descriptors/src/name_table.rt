//! The table behind the numbers of classes.

ghost use Rattle.std.specs.Prelude.{◌≡◌, ℕ, ◌<◌, ◌≤◌, ◌+◌, List, length, Some, OnOk, bytes_eq};
ghost use Rattle.std.specs.Prelude.{if◌then◌else◌};
ghost use Rattle.std.specs.Option.{option_or};
ghost use Rattle.std.specs.List.{position_from};
ghost use Rattle.jvm_types.specs.ClassNames.{numbered_names};
ghost use Rattle.descriptors.specs.NameTables.{find, names_in};

use jvm_types::class_numbers::{FIRST_FILE_CLASS, OBJECT_CLASS};
use jvm_types::limits::MOST_FILES;
use std::alloc::AllocError;
use std::collections::BTreeMap;

/// Numbers by names.
pub type NameTable<'a> = BTreeMap<&'a [u8], u16>;

/// The built-in classes with a number, in order of their numbers from 1 on.
const NUMBERED_NAMES: [&[u8]; 15] = [
    b"java/lang/Object",
    b"[I",
    b"java/io/PrintStream",
    b"java/lang/Throwable",
    b"java/lang/Exception",
    b"java/lang/Error",
    b"java/lang/RuntimeException",
    b"java/lang/InterruptedException",
    b"java/lang/ArithmeticException",
    b"java/lang/NullPointerException",
    b"java/lang/ArrayIndexOutOfBoundsException",
    b"java/lang/NegativeArraySizeException",
    b"java/lang/IllegalMonitorStateException",
    b"java/lang/OutOfMemoryError",
    b"java/lang/StackOverflowError",
];

/// Gives a name this number, in place of any that it has.
fn put<'a>(table: &mut NameTable<'a>, name: &'a [u8], number: u16) -> Result<(), AllocError>
    ensures { OnOk result ((q : List ℕ)
        → find table.new q ≡ (if bytes_eq q name.now then Some number else find table.old q)) }
{
    table.insert(name, number)?;
    Ok(())
}

/// Gives each name of these the number of its place, from `first` on; of equal ones the first
/// counts.
fn put_names<'a>(
    table: &mut NameTable<'a>,
    names: &[&'a [u8]],
    first: u16,
) -> Result<(), AllocError>
    requires { first + length names.now < 65536 }
    ensures { OnOk result ((q : List ℕ) → find table.new q
        ≡ option_or (position_from (bytes_eq q) first (names_in names.now)) (find table.old q)) }
{
    for place in (0..names.len()).rev() {
        put(table, names[place], first + place as u16)?;
    }
    Ok(())
}

/// Gives each built-in class its number.
pub fn put_built_in(table: &mut NameTable<'_>) -> Result<(), AllocError>
    ensures { OnOk result ((q : List ℕ) → find table.new q
        ≡ option_or (position_from (bytes_eq q) OBJECT_CLASS numbered_names) (find table.old q)) }
{
    put_names(table, &NUMBERED_NAMES, OBJECT_CLASS)
}

/// Gives the class of each file its number; of equal names the first counts.
pub fn put_files<'a>(table: &mut NameTable<'a>, names: &[&'a [u8]]) -> Result<(), AllocError>
    requires { length names.now ≤ MOST_FILES }
    ensures { OnOk result ((q : List ℕ)
        → find table.new q
        ≡ option_or (position_from (bytes_eq q) FIRST_FILE_CLASS (names_in names.now))
        (find table.old q)) }
{
    put_names(table, names, FIRST_FILE_CLASS)
}
