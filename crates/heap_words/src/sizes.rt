//! How many words objects and arrays take.

ghost use Rattle.std.specs.Prelude.{◌≡◌, ◌<◌, ◌≤◌, length};
ghost use Rattle.jvm_types.specs.ProgramInvariant.{IsProgram, instances_among};
ghost use Rattle.machine_types.specs.Words.{array_size, class_object, object_size};

use checked_program::word_of_class;
use jvm_types::fixed_words::OBJECT_HEAD_WORDS;
use jvm_types::flags::is_static;
use jvm_types::limits::MOST_HEAP;
use jvm_types::{FieldInfo, Program};

/// How many of some fields an object of a class has.
fn instances(fields: &[FieldInfo], class: u16) -> u32
    requires { instances_among class fields.now < 65536 }
    ensures count { result ≡ instances_among class fields.now }
    ensures few { result < 65536 }
{
    let mut count = 0;
    for field in fields {
        if field.class == class && !is_static(field.flags) {
            count += 1;
        }
    }
    count
}

/// How many words an object of a class takes: two, and one for each of its fields.
pub fn object_size(p: &Program, class: u16) -> u32
    requires { IsProgram p.now }
    ensures { result ≡ object_size p.now class }
{
    OBJECT_HEAD_WORDS + instances(p.fields.as_slice(), class)
}

/// The reference of the class of the file of this number, as an object: its lock word.
pub fn class_object(p: &Program, class: u16) -> u32
    requires program { IsProgram p.now }
    requires file { class < length p.now.names }
    ensures { result ≡ class_object p.now class }
{
    word_of_class(p.fields.as_slice(), class)
}

/// How many words an array of int takes: two, and one for each of its elements, which are no more
/// than a heap has words.
#[inline(always)]
pub fn array_size(length: u32) -> u32
    requires { length ≤ MOST_HEAP }
    ensures { result ≡ array_size length }
{
    OBJECT_HEAD_WORDS + length
}
