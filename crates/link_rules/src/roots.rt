//! The fourth pass: the methods that the machine begins with (JVMS 2.9, 5.5).

ghost use Rattle.std.specs.Prelude.{◌≡◌};
ghost use Rattle.std.specs.Result.{result_err};
ghost use Rattle.std.specs.List.{list_any};
ghost use Rattle.jvm_types.specs.ClassNames.{text_at, file_class};
ghost use Rattle.jvm_types.specs.Members.{declared_from, declared_methods};
ghost use Rattle.jvm_types.specs.LinkFaults.{is_run, is_entry, is_synchronized_root, is_wrong_root};
ghost use Rattle.jvm_types.specs.LinkFaults.{is_wrong_method, is_run_method};
ghost use Rattle.jvm_types.specs.LinkFaults.{root_pass as fourth_pass};

use crate::places::Fault;
use crate::texts::{is_class_init_name, is_same_text};
use constant_pools::pool_texts;
use jvm_types::class_numbers::FIRST_FILE_CLASS;
use jvm_types::flags::{is_static, is_synchronized};
use jvm_types::{ClassFile, LRule, Member, in_file};
use link_scope::{FileScope, Scope};

/// Whether a method is the part of a worker.
fn is_run(name: &[u8], descriptor: &[u8]) -> bool
    ensures { result ≡ is_run name.now descriptor.now }
{
    is_same_text(name, b"run") && is_same_text(descriptor, b"(I)V")
}

/// Whether a method of the first class is a part.
fn is_entry(name: &[u8], descriptor: &[u8]) -> bool
    ensures { result ≡ is_entry name.now descriptor.now }
{
    let is_first_or_last = is_same_text(name, b"init") || is_same_text(name, b"done");
    is_run(name, descriptor) || is_same_text(descriptor, b"()V") && is_first_or_last
}

/// Whether a method is a `<clinit>` or a part, and has the monitor of its class.
pub fn is_synchronized_root(class: u16, name: &[u8], descriptor: &[u8], flags: u16) -> bool
    ensures { result ≡ is_synchronized_root class name.now descriptor.now flags }
{
    let begins = is_class_init_name(name)
        || class == FIRST_FILE_CLASS && is_entry(name, descriptor);
    is_static(flags) && is_synchronized(flags) && begins
}

/// Whether a method is a `<clinit>` or a part, and not as the machine begins with it.
fn is_wrong_root(class: u16, name: &[u8], descriptor: &[u8], flags: u16) -> bool
    ensures { result ≡ is_wrong_root class name.now descriptor.now flags }
{
    let is_instance = !is_static(flags);
    let is_wrong_init = is_class_init_name(name)
        && (is_instance || !is_same_text(descriptor, b"()V"));
    is_wrong_init || class == FIRST_FILE_CLASS && is_entry(name, descriptor) && is_instance
}

/// Whether a method of a file is a wrong one to begin with.
fn is_wrong_method(file: &FileScope<'_, '_>, method: &Member) -> bool
    ensures { result ≡ is_wrong_root (file_class file.now.number)
        (text_at file.now.class.constants method.now.name)
        (text_at file.now.class.constants method.now.descriptor) method.now.flags }
{
    is_wrong_root(
        file.own_class(),
        file.text(method.name),
        file.text(method.descriptor),
        method.flags,
    )
}

/// Whether a file has a wrong method to begin with.
fn has_wrong_method(file: &FileScope<'_, '_>) -> bool
    ensures { result ≡ list_any is_wrong_method
        (declared_from file.now.number file.now.class.constants 0 file.now.class.methods) }
{
    for method in file.class().methods.as_slice() {
        if is_wrong_method(file, method) {
            return true;
        }
    }
    false
}

/// Whether some file has a wrong method to begin with.
fn is_wrong_somewhere(scope: &Scope<'_>) -> bool
    ensures { result ≡ list_any is_wrong_method (declared_methods scope.now) }
{
    for (number, class) in scope.files().as_slice().iter().enumerate() {
        if has_wrong_method(&scope.file(number, class)) {
            return true;
        }
    }
    false
}

/// Whether a class, as the first one, has the part of a worker.
fn declares_run(class: &ClassFile) -> bool
    ensures { result
        ≡ list_any is_run_method (declared_from 0 class.now.constants 0 class.now.methods) }
{
    for method in class.methods.as_slice() {
        let name = pool_texts::text_at(&class.constants, method.name);
        let descriptor = pool_texts::text_at(&class.constants, method.descriptor);
        if is_run(name, descriptor) {
            return true;
        }
    }
    false
}

/// Whether the first class has the part of a worker.
#[tactic(auto, using(crate::proofs::FirstRun::run_of_first, crate::proofs::FirstRun::no_first))]
fn has_run(files: &[ClassFile]) -> bool
    ensures { result ≡ list_any is_run_method (declared_methods files.now) }
{
    match files.first() {
        Some(class) => declares_run(class),
        None => false,
    }
}

/// The fourth pass: L4.
pub fn root_pass(scope: &Scope<'_>, workers: u8) -> Result<(), Fault>
    ensures { result_err result ≡ fourth_pass scope.now workers }
{
    if is_wrong_somewhere(scope) || workers > 0 && !has_run(scope.files().as_slice()) {
        Err((LRule::L4, in_file(0, 0)))
    } else {
        Ok(())
    }
}
