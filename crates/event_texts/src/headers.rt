//! What stands in a header, as text.

ghost use Rattle.std.specs.Prelude.{◌≡◌, ◌++◌, OnOk};
ghost use Rattle.event_texts.specs.HeaderTexts.{array_text, built_in_text, class_told, header_text};
ghost use Rattle.event_texts.specs.HeaderTexts.{other_class_text};
ghost use Rattle.machine_types.specs.ReadyObjects.{thrown_of as the_thrown};

use heap_words::{header_class, thrown_of};
use jvm_types::Program;
use jvm_types::class_numbers::{
    CLASS_ITSELF, FIRST_FILE_CLASS, INT_ARRAY_CLASS, OBJECT_CLASS, PRINT_STREAM_CLASS,
};
use jvm_types::fixed_words::HEADER_CLASSES;
use run_texts::{name_of, write_class};
use std::alloc::{AllocError, Global};

/// A class that is neither that of a file nor a throwable.
fn other_class(class: u16) -> &'static str
    ensures { result.now ≡ other_class_text class }
{
    if class == OBJECT_CLASS {
        "java/lang/Object"
    } else if class == PRINT_STREAM_CLASS {
        "java/io/PrintStream"
    } else if class == CLASS_ITSELF {
        "java/lang/Class"
    } else {
        "none"
    }
}

/// A class that is not that of a file.
fn built_in(class: u16) -> &'static str
    ensures { result.now ≡ built_in_text (the_thrown class) class }
{
    match thrown_of(class) {
        Some(thrown) => name_of(thrown),
        None => other_class(class),
    }
}

/// Adds the name of a class, by its number.
fn write_any_class(text: &mut Vec<u8>, p: &Program, class: u16) -> Result<(), AllocError>
    ensures { OnOk result (text.new.items ≡ text.old.items ++ class_told p.now class) }
{
    if class < FIRST_FILE_CLASS {
        text.extend_from_slice(built_in(class).as_bytes())
    } else {
        write_class(text, p, class)
    }
}

/// Adds the type of an array of so many elements.
fn write_array(text: &mut Vec<u8>, alloc: Global, length: u64) -> Result<(), AllocError>
    ensures { OnOk result (text.new.items ≡ text.old.items ++ array_text length) }
{
    let mut words = String::new(alloc);
    write!(words, "int[{length}]")?;
    text.extend_from_slice(words.as_bytes())
}

/// Adds what stands in a header.
pub fn write_header(
    text: &mut Vec<u8>,
    alloc: Global,
    p: &Program,
    word: u64,
) -> Result<(), AllocError>
    ensures { OnOk result (text.new.items ≡ text.old.items ++ header_text p.now word) }
{
    let class = header_class(word);
    if class == INT_ARRAY_CLASS {
        write_array(text, alloc, word / HEADER_CLASSES)
    } else {
        write_any_class(text, p, class)
    }
}
