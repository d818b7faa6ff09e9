//! The members of the built-in classes.

ghost use Rattle.std.specs.Prelude.{◌≡◌, ◌∷◌, [], OnOk};
ghost use Rattle.jvm_types.specs.Members.{built_in_fields, built_in_methods};
ghost use Rattle.jvm_types.specs.Members.{public_method as public_method_of};
ghost use Rattle.jvm_types.specs.Members.{init_of as init_of_class};
ghost use Rattle.link_scope.specs.MemberTables.{Adds};
ghost use Rattle.link_scope.specs.BuiltIn.{entry_of, first_methods};

use crate::file_texts::FileTexts;
use crate::scope::Found;
use crate::table::{Key, Table};
use jvm_types::Target;
use jvm_types::class_numbers::{
    CLASS_ITSELF, OBJECT_CLASS, PRINT_STREAM_CLASS, SYSTEM_CLASS, THROWABLE_CLASS,
};
use jvm_types::flags::{FINAL, PUBLIC, STATIC};
use std::alloc::AllocError;

/// PUBLIC, STATIC and FINAL (JVMS 4.5).
const CONSTANT_FLAGS: u16 = PUBLIC | STATIC | FINAL;

/// A field or method of a built-in class.
#[derive(Drop)]
struct BuiltIn {
    class: u16,
    name: &'static [u8],
    descriptor: &'static [u8],
    flags: u16,
    target: Target,
}

/// A public instance method.
fn public_method(
    class: u16,
    name: &'static [u8],
    descriptor: &'static [u8],
    target: Target,
) -> BuiltIn
    ensures { entry_of result ≡ public_method_of class name.now descriptor.now target }
{
    BuiltIn {
        class,
        name,
        descriptor,
        flags: PUBLIC,
        target,
    }
}

/// The `<init>()V` of a class.
fn init_of(class: u16) -> BuiltIn
    ensures { entry_of result ≡ init_of_class class }
{
    public_method(class, b"<init>", b"()V", Target::Init(class))
}

/// Adds a member, unless no file has its name and descriptor: then nothing names it.
fn add(table: &mut Table, texts: &FileTexts, member: &BuiltIn) -> Result<(), AllocError>
    ensures { OnOk result (Adds texts.now.numbers table.old table.new (entry_of member.now ∷ [])) }
{
    let Some(name) = texts.number_of(member.name) else {
        return Ok(());
    };
    let Some(descriptor) = texts.number_of(member.descriptor) else {
        return Ok(());
    };
    let key = Key {
        class: member.class,
        name,
        descriptor,
    };
    let found = Found {
        class: member.class,
        flags: member.flags,
        target: member.target,
    };
    table.add(key, found)?;
    Ok(())
}

/// Adds `System.out`.
pub fn add_fields(table: &mut Table, texts: &FileTexts) -> Result<(), AllocError>
    ensures { OnOk result (Adds texts.now.numbers table.old table.new built_in_fields) }
{
    let out = BuiltIn {
        class: SYSTEM_CLASS,
        name: b"out",
        descriptor: b"Ljava/io/PrintStream;",
        flags: CONSTANT_FLAGS,
        target: Target::Out,
    };
    add(table, texts, &out)
}

/// Adds the methods of `Object` and of `PrintStream`.
fn add_first_methods(table: &mut Table, texts: &FileTexts) -> Result<(), AllocError>
    ensures { OnOk result (Adds texts.now.numbers table.old table.new first_methods) }
{
    add(table, texts, &init_of(OBJECT_CLASS))?;
    add(
        table,
        texts,
        &public_method(OBJECT_CLASS, b"wait", b"()V", Target::Wait),
    )?;
    add(
        table,
        texts,
        &public_method(OBJECT_CLASS, b"notify", b"()V", Target::Notify),
    )?;
    add(
        table,
        texts,
        &public_method(OBJECT_CLASS, b"notifyAll", b"()V", Target::NotifyAll),
    )?;
    add(
        table,
        texts,
        &public_method(PRINT_STREAM_CLASS, b"println", b"(I)V", Target::Println),
    )?;
    Ok(())
}

/// Adds the methods of `Object` and of `PrintStream`, and the `<init>` of each throwable.
pub fn add_methods(table: &mut Table, texts: &FileTexts) -> Result<(), AllocError>
    ensures { OnOk result (Adds texts.now.numbers table.old table.new built_in_methods) }
{
    add_first_methods(table, texts)?;
    for class in THROWABLE_CLASS..CLASS_ITSELF {
        add(table, texts, &init_of(class))?;
    }
    Ok(())
}
