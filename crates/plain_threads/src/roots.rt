//! The methods that the parts of a thread begin with.

ghost use Rattle.std.specs.Prelude.{◌≡◌, ◌≤◌, ◌<◌, ◌++◌, length, [], ◌∷◌, if◌then◌else◌, OnOk};
ghost use Rattle.std.specs.Prelude.{IfOk};
ghost use Rattle.machine_types.specs.Parts.{done_roots, init_roots, numbers_of, is_entry_named};
ghost use Rattle.machine_types.specs.Parts.{run_roots};
ghost use Rattle.plain_threads.specs.Roots.{is_plain_root};

use checked_program::Checked;
use jvm_types::class_numbers::FIRST_FILE_CLASS;
use jvm_types::{MethodInfo, Rows, Stack};
use std::alloc::{AllocError, Global};

/// A method that a part begins with.
#[derive(Clone, Copy)]
pub enum Root {
    ClassInit,
    Init,
    Run,
    Done,
}

fn is_entry(m: &MethodInfo, name: &[u8], descriptor: &[u8]) -> bool
    ensures { result ≡ is_entry_named name.now descriptor.now m.now }
{
    m.class == FIRST_FILE_CLASS
        && m.name.as_slice() == name
        && m.descriptor.as_slice() == descriptor
}

/// Whether a method is such a root.
fn is_root(root: Root, m: &MethodInfo) -> bool
    ensures { result ≡ is_plain_root root m.now }
{
    match root {
        Root::ClassInit => m.name.as_slice() == b"<clinit>".as_slice(),
        Root::Init => is_entry(m, b"init", b"()V"),
        Root::Run => is_entry(m, b"run", b"(I)V"),
        Root::Done => is_entry(m, b"done", b"()V"),
    }
}

fn add_if(numbers: &mut Stack<u32>, test: bool, number: u32) -> Result<(), AllocError>
    ensures { OnOk result (numbers.new ≡ (if test then number ∷ numbers.old else numbers.old)) }
{
    if test {
        numbers.push(number)?;
    }
    Ok(())
}

/// Puts the numbers of the methods that are such a root before those that are there.
fn add_roots(
    numbers: &mut Stack<u32>,
    methods: &Rows<MethodInfo>,
    root: Root,
) -> Result<(), AllocError>
    requires { length methods.now < 4294967296 }
    ensures { OnOk result
        (numbers.new ≡ numbers_of (is_plain_root root) 0 methods.now ++ numbers.old) }
{
    for i in (0..methods.len()).rev() {
        match methods.get(i) {
            Some(m) => add_if(numbers, is_root(root, m), i as u32)?,
            None => unreachable!(),
        }
    }
    Ok(())
}

/// Those of `init`: each `<clinit>`, and then `init`.
pub fn init_roots(alloc: Global, p: &Checked) -> Result<Stack<u32>, AllocError>
    ensures { IfOk result (λ numbers. numbers ≡ init_roots p.now.program) }
{
    let mut numbers = Stack::new(alloc);
    let methods = &p.program().methods;
    add_roots(&mut numbers, methods, Root::Init)?;
    add_roots(&mut numbers, methods, Root::ClassInit)?;
    Ok(numbers)
}

/// That of a worker.
pub fn run_roots(alloc: Global, p: &Checked) -> Result<Stack<u32>, AllocError>
    ensures { IfOk result (λ numbers. numbers ≡ run_roots p.now.program) }
{
    let mut numbers = Stack::new(alloc);
    add_roots(&mut numbers, &p.program().methods, Root::Run)?;
    Ok(numbers)
}

/// That of `done`.
pub fn done_roots(alloc: Global, p: &Checked) -> Result<Stack<u32>, AllocError>
    ensures { IfOk result (λ numbers. numbers ≡ done_roots p.now.program) }
{
    let mut numbers = Stack::new(alloc);
    add_roots(&mut numbers, &p.program().methods, Root::Done)?;
    Ok(numbers)
}
