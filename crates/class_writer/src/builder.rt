//! Building a class, constant by constant.

ghost use Rattle.std.specs.Prelude.{◌≡◌, ◌≤◌, ◌++◌, ◌↔◌, ◌∷◌, [], length, IsTrue, IfOk, OnOk};
ghost use Rattle.std.specs.Prelude.{OnErr, MatchOption};
ghost use Rattle.jvm_types.specs.declared.class_file.Constant.TheVariants.{Gap};
ghost use Rattle.class_writer.specs.Building.{empty_class, pool_entries_of, length_with, IsNew};
ghost use Rattle.class_writer.specs.Building.{IsFirstIndex, Builds};

use crate::error::BuildError;
use constant_pools::index_kinds::is_wide;
use jvm_types::limits::MOST_COUNTED;
use jvm_types::{ClassFile, Constant, Rows};
use std::alloc::{AllocError, Global};

/// A class that is being built. Its parts may be changed at any time.
#[derive(Debug, Drop)]
pub struct Builder {
    /// The class so far.
    pub parts: ClassFile,
}

/// A builder of a class of version 50.0 that has nothing but the gap at index 0 of its pool: each
/// list is empty, and each other number is 0.
///
/// Errors: where memory runs out.
pub fn new_builder(alloc: Global) -> Result<Builder, AllocError>
    ensures { IfOk result (λ b. b.parts ≡ empty_class) }
{
    let mut constants = Rows::new(alloc);
    constants.push(Constant::Gap)?;
    let parts = ClassFile {
        minor: 0,
        major: 50,
        constants,
        flags: 0,
        this_class: 0,
        super_class: 0,
        interfaces: Rows::new(alloc),
        fields: Rows::new(alloc),
        methods: Rows::new(alloc),
        attrs: Rows::new(alloc),
    };
    Ok(Builder { parts })
}

fn is_same(left: &Constant, right: &Constant) -> bool
    ensures { IsTrue result ↔ (left.now ≡ right.now) }
{
    left == right
}

/// The first index of a constant in the pool.
fn find(pool: &Rows<Constant>, constant: &Constant) -> Option<usize>
    ensures { MatchOption result (IsNew pool.now constant.now)
        (IsFirstIndex pool.now constant.now) }
{
    for (i, entry) in pool.as_slice().iter().enumerate() {
        if is_same(entry, constant) {
            return Some(i);
        }
    }
    None
}

/// How many indices a constant takes (JVMS 4.4.5).
fn entries_of(constant: &Constant) -> usize
    ensures { result ≡ length (pool_entries_of constant.now) }
{
    if is_wide(constant) { 2 } else { 1 }
}

/// Adds a constant at the end, and a gap behind one that takes two indices. Where memory runs out
/// nothing changes.
fn append(pool: &mut Rows<Constant>, constant: Constant) -> Result<(), AllocError>
    ensures ok { OnOk result (pool.new ≡ pool.old ++ pool_entries_of constant) }
    ensures err { OnErr result (pool.new ≡ pool.old) }
{
    let takes_two = is_wide(&constant);
    pool.push(constant)?;
    if takes_two && let Err(error) = pool.push(Constant::Gap) {
        pool.pop();
        return Err(error);
    }
    Ok(())
}

impl Builder {
    /// The first index of an equal constant; where there is none, `c` is appended, with a gap
    /// behind a `Long` or a `Double`, and its index is answered.
    ///
    /// The pool is searched as it is at the call, since `parts` may have been changed: a call takes
    /// time in proportion to the number of entries, of which most are told apart by their kind or
    /// length.
    ///
    /// Errors: `Full` where there is no equal constant and the last index of `c` would be above
    /// 65,534; `Memory` where memory runs out. Nothing changes then.
    pub fn constant(&mut self, c: Constant) -> Result<u16, BuildError>
        requires some { 1 ≤ length self.old.parts.constants }
        requires few { length self.old.parts.constants ≤ MOST_COUNTED }
        ensures { Builds self.old.parts self.new.parts c result }
    {
        if let Some(index) = find(&self.parts.constants, &c) {
            return Ok(index as u16);
        }
        let index = self.parts.constants.len();
        if MOST_COUNTED < index + entries_of(&c) {
            return Err(BuildError::Full);
        }
        append(&mut self.parts.constants, c)?;
        Ok(index as u16)
    }
}
