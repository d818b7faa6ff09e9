//! The memory at the start.

ghost use Rattle.std.specs.Prelude.{◌≡◌, ◌+◌, ◌*◌, [], ◌∷◌, ◌++◌, ◌<◌, ◌≤◌, map, length, filter};
ghost use Rattle.std.specs.Prelude.{count_by, ◌==◌, ◌&&◌, OnOk, OnErr, IfOk};
ghost use Rattle.std.specs.List.{range_with_len};
ghost use Rattle.jvm_types.specs.Members.{is_static};
ghost use Rattle.jvm_types.specs.ProgramInvariant.{IsProgram, statics_among, words_of};
ghost use Rattle.machine_types.specs.Ints.{word_of};
ghost use Rattle.machine_types.specs.PlainMemory.{class_objects, objects_from, start_objects};
ghost use Rattle.machine_types.specs.PlainMemory.{start_statics};
ghost use Rattle.machine_types.specs.ReadyObjects.{ready_classes};
ghost use Rattle.machine_types.specs.StartWords.{classes_of, statics_of};
ghost use Rattle.jvm_types.specs.declared.class_numbers.TheConstants.{FIRST_FILE_CLASS};
ghost use Rattle.jvm_types.specs.declared.fixed_words.TheConstants.{FIRST_READY_WORD};
ghost use Rattle.jvm_types.specs.declared.limits.TheConstants.{MOST_FILES, MOST_HEAP};

use crate::memory::StaticValue;
use crate::object::Object;
use heap_words::{class_of, out_object, ready};
use instr_effects::word_of;
use jvm_types::class_numbers::{CLASS_ITSELF, PRINT_STREAM_CLASS, file_class};
use jvm_types::fixed_words::{FIRST_CLASS_WORD, OBJECT_HEAD_WORDS};
use jvm_types::flags::is_static;
use jvm_types::{FieldInfo, Program, Thrown};
use std::alloc::{AllocError, Global};

/// The throwables of which the machine has an object from the start on.
const READY: [Thrown; 7] = [
    Thrown::ArithmeticException,
    Thrown::NullPointerException,
    Thrown::ArrayIndexOutOfBoundsException,
    Thrown::NegativeArraySizeException,
    Thrown::IllegalMonitorStateException,
    Thrown::OutOfMemoryError,
    Thrown::StackOverflowError,
];

/// Adds an object without values.
fn add_bare(
    alloc: Global,
    objects: &mut Vec<Object>,
    reference: u64,
    class: u16,
) -> Result<(), AllocError>
    ensures { OnOk result (objects.new.items ≡ objects.old.items
        ++ record { reference = reference; class = class; values = [] } ∷ []) }
{
    objects.push(Object::bare(alloc, reference, class))?;
    Ok(())
}

/// Adds the objects of the machine.
fn add_ready(alloc: Global, objects: &mut Vec<Object>) -> Result<(), AllocError>
    ensures { OnOk result
        (objects.new.items ≡ objects.old.items ++ objects_from FIRST_READY_WORD ready_classes) }
{
    for thrown in &READY {
        add_bare(alloc, objects, ready(*thrown) as u64, class_of(*thrown))?;
    }
    add_bare(alloc, objects, out_object() as u64, PRINT_STREAM_CLASS)
}

/// How many static fields a class has.
fn count_statics_of(fields: &[FieldInfo], class: u16) -> u32
    requires { statics_among fields.now ≤ MOST_HEAP }
    ensures count { result ≡ length (statics_of fields.now class) }
    ensures few { result ≤ MOST_HEAP }
{
    let mut count = 0;
    for field in fields {
        if field.class == class && is_static(field.flags) {
            count += 1;
        }
    }
    count
}

/// Adds so many classes, of which the first is that of the first file.
fn add_classes(
    alloc: Global,
    objects: &mut Vec<Object>,
    fields: &[FieldInfo],
    count: usize,
) -> Result<(), AllocError>
    requires files { count ≤ MOST_FILES }
    requires statics { statics_among fields.now ≤ MOST_HEAP }
    ensures { OnOk result (objects.new.items ≡ objects.old.items ++ class_objects fields.now
        FIRST_CLASS_WORD (range_with_len FIRST_FILE_CLASS count)) }
{
    let mut reference = FIRST_CLASS_WORD as u64;
    for file in 0..count {
        let class = file_class(file);
        add_bare(alloc, objects, reference, CLASS_ITSELF)?;
        reference += (OBJECT_HEAD_WORDS + count_statics_of(fields, class)) as u64;
    }
    Ok(())
}

/// The objects at the start: the ready objects and the classes.
pub fn start_objects(alloc: Global, p: &Program) -> Result<Vec<Object>, AllocError>
    requires { IsProgram p.now }
    ensures { IfOk result (λ objects. objects.items ≡ start_objects p.now) }
{
    let mut objects = Vec::new(alloc);
    add_ready(alloc, &mut objects)?;
    add_classes(alloc, &mut objects, p.fields.as_slice(), p.names.len())?;
    Ok(objects)
}

/// The static fields at the start.
pub fn start_statics(alloc: Global, fields: &[FieldInfo]) -> Result<Vec<StaticValue>, AllocError>
    ensures { IfOk result (λ statics.
        statics.items ≡ map (λ f. record { word = f.index; value = word_of f.start })
        (filter (λ f. is_static f.flags) fields.now)) }
{
    let mut statics = Vec::new(alloc);
    for field in fields {
        if is_static(field.flags) {
            statics.push(StaticValue::of(field.index, word_of(field.start)))?;
        }
    }
    Ok(statics)
}

/// How many static fields there are.
fn count_statics(fields: &[FieldInfo]) -> u32
    requires { statics_among fields.now ≤ MOST_HEAP }
    ensures { result ≡ statics_among fields.now }
{
    let mut count = 0;
    for field in fields {
        if is_static(field.flags) {
            count += 1;
        }
    }
    count
}

/// The words that the program has from the start on.
pub fn words_of(p: &Program) -> u32
    requires { IsProgram p.now }
    ensures { result ≡ words_of p.now }
{
    FIRST_CLASS_WORD + OBJECT_HEAD_WORDS * p.names.len() as u32 + count_statics(p.fields.as_slice())
}
