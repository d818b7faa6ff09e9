//! The classes of the files, from what their `<init>` methods let out.

ghost use Rattle.std.specs.Prelude.{◌≡◌, ◌≤◌, length, slice_get, Some, IfOk};
ghost use Rattle.jvm_types.specs.ProgramInvariant.{IsProgram};
ghost use Rattle.jvm_types.specs.Verifying.{IsLaidOut};
ghost use Rattle.jvm_types.specs.declared.limits.TheConstants.{MOST_INSTRUCTIONS as most};
ghost use Rattle.checked_program.specs.MarkedProgram.{AreTaggings};
ghost use Rattle.checked_program.specs.TaggedCode.{tagged_by};
ghost use Rattle.frozen_classes.specs.FrozenClasses.{AreFrozenClasses, IsFirstOut, TellsOut};
ghost use Rattle.frozen_classes.specs.KeptThis.{frozen_upto, is_method_of, leak_of, class_noted};

use crate::insn_kept::keeps_all;
use crate::looks::looks_budget;
use checked_program::Tags;
use code_table::{IndexedMethod, is_init};
use code_visits::Budget;
use jvm_types::class_numbers::FIRST_FILE_CLASS;
use jvm_types::{MethodInfo, Program, Rows};
use std::alloc::{AllocError, Global};

/// The class of a method, where this is an `<init>` that lets its object out.
fn leak_of(
    alloc: Global,
    budget: &mut Budget,
    p: &Program,
    m: &MethodInfo,
    t: &Tags,
) -> Result<Option<u16>, AllocError>
    requires laid { IsLaidOut m.now }
    ensures { IfOk result (λ c. c ≡ leak_of p.now (Some m.now) (Some t.now)) }
{
    if is_init(m) {
        let indexed = IndexedMethod::of(alloc, m)?;
        let keeps = keeps_all(alloc, budget, p, &indexed, t)?;
        if keeps { Ok(None) } else { Ok(Some(m.class)) }
    } else {
        Ok(None)
    }
}

fn leak_at(
    alloc: Global,
    budget: &mut Budget,
    p: &Program,
    tags: &Rows<Tags>,
    u: usize,
) -> Result<Option<u16>, AllocError>
    requires program { IsProgram p.now }
    ensures { IfOk result
        (λ c. c ≡ leak_of p.now (slice_get p.now.methods u) (slice_get tags.now u)) }
{
    match p.methods.get(u) {
        Some(m) => match tags.get(u) {
            Some(t) => leak_of(alloc, budget, p, m, t),
            None => Ok(None),
        },
        None => Ok(None),
    }
}

/// A class with an `<init>` that lets its object out is not frozen.
fn note(flags: &mut Rows<bool>, class: Option<u16>)
    ensures { flags.new ≡ class_noted flags.old class }
{
    match class {
        Some(c) => {
            if c >= FIRST_FILE_CLASS {
                let k = (c - FIRST_FILE_CLASS) as usize;
                if k < flags.len() {
                    flags.set(k, false);
                }
            }
        }
        None => {}
    }
}

fn frozen_upto(
    alloc: Global,
    p: &Program,
    tags: &Rows<Tags>,
    methods: usize,
) -> Result<Rows<bool>, AllocError>
    requires program { IsProgram p.now }
    ensures { IfOk result (λ flags. flags ≡ frozen_upto p.now tags.now methods) }
{
    let mut budget = looks_budget(p);
    let mut flags = Rows::from_vec(vec![in alloc; true; p.names.len()]?);
    for u in 0..methods {
        let leak = leak_at(alloc, &mut budget, p, tags, u)?;
        note(&mut flags, leak);
    }
    Ok(flags)
}

/// For the class of each file, in order, whether it is frozen: no `<init>` of it lets its object
/// out, loses sight of it, or writes a final field on another object. `tags` has the lock tags of
/// each method. It fails only where memory is refused, or where there is more to look at than is
/// reckoned for the code of the program.
pub fn frozen_classes(
    alloc: Global,
    p: &Program,
    tags: &Rows<Tags>,
) -> Result<Rows<bool>, AllocError>
    requires program { IsProgram p.now }
    requires tagged { AreTaggings p.now p.now.methods tags.now }
    ensures { IfOk result (AreFrozenClasses p.now (tagged_by tags.now)) }
{
    let flags = frozen_upto(alloc, p, tags, p.methods.len())?;
    Ok(flags)
}

/// Whether the method of a number is one of a class.
fn is_method_of(p: &Program, class: u16, u: usize) -> bool
    ensures { result ≡ is_method_of class (slice_get p.now.methods u) }
{
    match p.methods.get(u) {
        Some(m) => m.class == class,
        None => false,
    }
}

/// Whether the method of a number is an `<init>` of a class that lets its object out.
fn lets_out(
    alloc: Global,
    budget: &mut Budget,
    p: &Program,
    tags: &Rows<Tags>,
    class: u16,
    u: usize,
) -> Result<bool, AllocError>
    requires program { IsProgram p.now }
    requires tagged { AreTaggings p.now p.now.methods tags.now }
    ensures { IfOk result (TellsOut p.now (tagged_by tags.now) class u) }
{
    if is_method_of(p, class, u) {
        let leak = leak_at(alloc, budget, p, tags, u)?;
        Ok(leak.is_some())
    } else {
        Ok(false)
    }
}

/// The number of the first `<init>` of a class that lets its object out; `None` where the class is
/// frozen. `tags` has the lock tags of each method. It fails only where memory is refused, or where
/// there is more to look at than is reckoned for the code of the program.
pub fn first_out(
    alloc: Global,
    p: &Program,
    tags: &Rows<Tags>,
    class: u16,
) -> Result<Option<u32>, AllocError>
    requires program { IsProgram p.now }
    requires tagged { AreTaggings p.now p.now.methods tags.now }
    requires few { length p.now.methods ≤ most }
    ensures { IfOk result (IsFirstOut p.now (tagged_by tags.now) class) }
{
    let mut budget = looks_budget(p);
    for u in 0..p.methods.len() {
        if lets_out(alloc, &mut budget, p, tags, class, u)? {
            return Ok(Some(u as u32));
        }
    }
    Ok(None)
}
