//! The method that the machine would begin with, and that is not as it begins with it (JVMS 2.9,
//! 5.5).

ghost use Rattle.std.specs.Prelude.{◌≡◌, ◌==◌, ℕ, bytes_eq};
ghost use Rattle.jvm_types.specs.ClassNames.{file_class};
ghost use Rattle.std.specs.List.{position_from};
ghost use Rattle.jvm_types.specs.LinkFaults.{is_entry, is_run, is_wrong_root};
ghost use Rattle.refusal_places.specs.Roots.{is_wrong_in as the_wrong_in, root_or as the_root_or};
ghost use Rattle.refusal_places.specs.Roots.{wrong_method as the_wrong_method, wrong_root_from};

use constant_pools::pool_texts::text_at;
use jvm_types::flags::is_static;
use jvm_types::{ClassFile, Constant, Member, Rows};

/// A method of a file, both by their numbers.
#[derive(Clone, Copy, Debug, PartialEq, Eq)]
pub struct Root {
    pub file: usize,
    pub method: usize,
}

/// Whether two texts are the same, byte by byte.
pub fn is_text(text: &[u8], other: &[u8]) -> bool
    ensures { result ≡ bytes_eq text.now other.now }
{
    text == other
}

// Whether a method is the part of a worker.
fn is_worker(name: &[u8], descriptor: &[u8]) -> bool
    ensures { result ≡ is_run name.now descriptor.now }
{
    is_text(name, b"run") && is_text(descriptor, b"(I)V")
}

// Whether a method of the first class is a part.
fn is_part(name: &[u8], descriptor: &[u8]) -> bool
    ensures { result ≡ is_entry name.now descriptor.now }
{
    let begins_or_ends = is_text(name, b"init") || is_text(name, b"done");
    is_worker(name, descriptor) || is_text(descriptor, b"()V") && begins_or_ends
}

fn is_wrong(is_first: bool, name: &[u8], descriptor: &[u8], flags: u16) -> bool
    ensures { (file : ℕ) → is_first ≡ (file_class file == file_class 0)
        → result ≡ is_wrong_root (file_class file) name.now descriptor.now flags }
{
    let is_instance = !is_static(flags);
    let is_wrong_init = is_text(name, b"<clinit>") && (is_instance || !is_text(descriptor, b"()V"));
    is_wrong_init || is_first && is_part(name, descriptor) && is_instance
}

fn is_wrong_in(file: usize, pool: &Rows<Constant>, method: &Member) -> bool
    ensures { result ≡ the_wrong_in file pool.now method.now }
{
    is_wrong(
        file == 0,
        text_at(pool, method.name),
        text_at(pool, method.descriptor),
        method.flags,
    )
}

fn wrong_method_of(file: usize, class: &ClassFile) -> Option<usize>
    ensures { result ≡ position_from (the_wrong_in file class.now.constants) 0 class.now.methods }
{
    for (number, method) in class.methods.as_slice().iter().enumerate() {
        if is_wrong_in(file, &class.constants, method) {
            return Some(number);
        }
    }
    None
}

fn wrong_method(file: usize, class: &Option<ClassFile>) -> Option<usize>
    ensures { result ≡ the_wrong_method file class.now }
{
    match class {
        Some(class) => wrong_method_of(file, class),
        None => None,
    }
}

/// The first such method of some classes; `None` stands for a file that spells no class.
pub fn wrong_root(classes: &[Option<ClassFile>]) -> Option<Root>
    ensures { result ≡ wrong_root_from 0 classes.now }
{
    for (file, class) in classes.iter().enumerate() {
        if let Some(method) = wrong_method(file, class) {
            return Some(Root { file, method });
        }
    }
    None
}
