//! The methods that the parts of a thread begin with.

ghost use Rattle.std.specs.Prelude.{◌≡◌, ◌≤◌, ◌<◌, ◌++◌, length, take, drop, slice_get, [], ◌∷◌};
ghost use Rattle.std.specs.Prelude.{if◌then◌else◌, OnOk, IfOk};
ghost use Rattle.machine_types.specs.Parts.{numbers_of, is_entry_named};
ghost use Rattle.frames.specs.RootLists.{is_root};

use jvm_types::class_numbers::FIRST_FILE_CLASS;
use jvm_types::limits::MOST_INSTRUCTIONS;
use jvm_types::{MethodInfo, Program, Rows};
use std::alloc::{AllocError, Global};
use std::marker::Model;

/// A method that a part begins with.
#[derive(Clone, Copy)]
pub enum Root {
    ClassInit,
    Init,
    Run,
    Done,
}

/// Contracts see the roots that are `left` of a thread's part, and those of its `later` part.
#[derive(Drop)]
pub struct Roots {
    numbers: Rows<u32>,
    begun: u32,
    until: u32,
    /// Where those of the later part begin.
    later: u32,
    count: u32,
}

impl Model for Roots {
    ghost use Rattle.std.specs.Prelude.{◌≡◌, ◌≤◌, ◌-◌, length, take, drop};
    ghost use Rattle.frames.specs.RootLists.{RootLists};

    ghost Value = { RootLists };

    ghost view = { λ r.
        record {
          left = take (r.until - r.begun) (drop r.begun r.numbers);
          later = drop r.later r.numbers;
        } };

    ghost invariant = { λ r.
        (r.begun ≤ r.until) × (r.until ≤ length r.numbers) × (r.later ≤ length r.numbers)
        × (r.count ≡ length r.numbers) };
}

fn is_entry(m: &MethodInfo, name: &[u8], descriptor: &[u8]) -> bool
    ensures { result ≡ is_entry_named name.now descriptor.now m.now }
{
    m.class == FIRST_FILE_CLASS
        && m.name.as_slice() == name
        && m.descriptor.as_slice() == descriptor
}

/// Whether a method is such a root.
fn is_root(root: Root, m: &MethodInfo) -> bool
    ensures { result ≡ is_root root m.now }
{
    match root {
        Root::ClassInit => m.name.as_slice() == b"<clinit>".as_slice(),
        Root::Init => is_entry(m, b"init", b"()V"),
        Root::Run => is_entry(m, b"run", b"(I)V"),
        Root::Done => is_entry(m, b"done", b"()V"),
    }
}

fn add_if(numbers: &mut Rows<u32>, test: bool, number: u32) -> Result<(), AllocError>
    ensures { OnOk result
        (numbers.new ≡ (if test then numbers.old ++ number ∷ [] else numbers.old)) }
{
    if test {
        numbers.push(number)?;
    }
    Ok(())
}

/// Adds the numbers of the methods that are such a root.
fn add_roots(
    numbers: &mut Rows<u32>,
    methods: &Rows<MethodInfo>,
    root: Root,
) -> Result<(), AllocError>
    requires { length methods.now < 4294967296 }
    ensures { OnOk result (numbers.new ≡ numbers.old ++ numbers_of (is_root root) 0 methods.now) }
{
    for i in 0..methods.len() {
        match methods.get(i) {
            Some(m) => add_if(numbers, is_root(root, m), i as u32)?,
            None => unreachable!(),
        }
    }
    Ok(())
}

impl Roots {
    ghost use Rattle.std.specs.Prelude.{◌≡◌, ◌≤◌, ◌<◌, length, take, drop, slice_get, IfOk};
    ghost use Rattle.frames.specs.RootLists.{first_roots, later_roots};

    /// So many numbers are those of the present part, and the others of the later one.
    fn split(numbers: Rows<u32>, first: usize) -> Roots
        requires first { first ≤ length numbers }
        requires few { length numbers < 4294967296 }
        ensures { result ≡ record { left = take first numbers; later = drop first numbers } }
    {
        let count = numbers.len() as u32;
        Roots {
            numbers,
            begun: 0,
            until: first as u32,
            later: first as u32,
            count,
        }
    }

    /// Those of `init` and `done`.
    fn of_first(alloc: Global, p: &Program) -> Result<Roots, AllocError>
        requires { length p.now.methods ≤ MOST_INSTRUCTIONS }
        ensures { IfOk result
            (λ r. r ≡ record { left = first_roots p.now 0; later = later_roots p.now 0 }) }
    {
        let mut numbers = Rows::new(alloc);
        add_roots(&mut numbers, &p.methods, Root::ClassInit)?;
        add_roots(&mut numbers, &p.methods, Root::Init)?;
        let first = numbers.len();
        add_roots(&mut numbers, &p.methods, Root::Done)?;
        Ok(Roots::split(numbers, first))
    }

    /// Those of `run`, for later.
    fn of_worker(alloc: Global, p: &Program, number: u8) -> Result<Roots, AllocError>
        requires worker { 0 < number }
        requires few { length p.now.methods ≤ MOST_INSTRUCTIONS }
        ensures { IfOk result (λ r.
            r ≡ record { left = first_roots p.now number; later = later_roots p.now number }) }
    {
        let mut numbers = Rows::new(alloc);
        add_roots(&mut numbers, &p.methods, Root::Run)?;
        Ok(Roots::split(numbers, 0))
    }

    /// Those of a thread.
    pub fn of(alloc: Global, p: &Program, number: u8) -> Result<Roots, AllocError>
        requires { length p.now.methods ≤ MOST_INSTRUCTIONS }
        ensures { IfOk result (λ r.
            r ≡ record { left = first_roots p.now number; later = later_roots p.now number }) }
    {
        if number == 0 {
            Roots::of_first(alloc, p)
        } else {
            Roots::of_worker(alloc, p, number)
        }
    }

    /// How many are left.
    pub fn left(&self) -> u32
        ensures { result ≡ length self.now.left }
    {
        self.until - self.begun
    }

    /// Takes the first one that is left, or answers `None` where there is none.
    pub fn take_first(&mut self) -> Option<u32>
        ensures root { result ≡ slice_get self.old.left 0 }
        ensures rest { self.new ≡ record self.old { left = drop 1 self.old.left } }
    {
        if self.begun >= self.until {
            return None;
        }
        let root = self.numbers.as_slice()[self.begun as usize];
        self.begun += 1;
        Some(root)
    }

    /// Those of the later part are left.
    pub fn begin_later(&mut self)
        ensures { self.new ≡ record self.old { left = self.old.later } }
    {
        self.begun = self.later;
        self.until = self.count;
    }
}
