//! What keeps a section from a place that it reads (M5).

ghost use Rattle.std.specs.Prelude.{◌≡◌, ◌<◌, ◌≤◌, Bool, Some, length, slice_get, slice_index_or};
ghost use Rattle.std.specs.Prelude.{IfOk};
ghost use Rattle.jvm_types.specs.ProgramInvariant.{IsProgram};
ghost use Rattle.jvm_types.specs.declared.limits.TheConstants.{MOST_INSTRUCTIONS as most};
ghost use Rattle.checked_program.specs.FrozenPlaces.{IsFrozenUse, IsGuardedUse};
ghost use Rattle.checked_program.specs.OwnedArrays.{AreUses};
ghost use Rattle.checked_program.specs.MarkedProgram.{AreTaggings};
ghost use Rattle.checked_program.specs.Marks.{class_of_field, is_own_class, use_fault, BreaksAt};
ghost use Rattle.checked_program.specs.TaggedCode.{tagged_by};
ghost use Rattle.checked_program.specs.declared.section.FieldUse.TheVariants.{Open as open_use};
ghost use Rattle.mark_reasons.specs.ArrayCauses.{IsArrayMemo, KeepsElement};
ghost use Rattle.mark_reasons.specs.Causes.{is_number, place_at, place_read, site_place, writes_at};
ghost use Rattle.mark_reasons.specs.Causes.{Bars, IsCause, IsFirstWriteOf, IsMutable, IsWriteFound};
ghost use Rattle.mark_reasons.specs.Causes.{IsCauseMemo, IsFieldMemo, KeepsField, KeepsStatic};
ghost use Rattle.mark_reasons.specs.Reasons.{callee_of};
ghost use Rattle.mark_reasons.specs.Firsts.{IsFirst};
ghost use Rattle.mark_reasons.specs.declared.cause.ReadPlace.TheVariants.{Element as element};

use crate::array_causes::element_cause;
use crate::cause_memo::{CauseMemo, FieldMemo};
use crate::reason::Site;
use checked_program::{FieldUse, Mode, Tags, Uses};
use frozen_classes::first_out;
use guard_analysis::array_faults::Misuse;
use guard_analysis::calls::is_own_class;
use guard_analysis::faults::{class_of_field, use_of};
use guard_analysis::field_uses::unguarded_at;
use jvm_types::flags::{is_private, is_static};
use jvm_types::{FieldInfo, MethodInfo, Op, Program, Rows, Target};
use std::alloc::{AllocError, Global};

/// What keeps a section from a place that it reads.
#[derive(Clone, Copy, Debug, PartialEq, Eq)]
pub enum Cause {
    /// It is an element of an array that is not known to be the section's own.
    Element,
    /// It is an element of an array that was read from a field of the section's object, and an
    /// instruction of a method counts against that field as one whose arrays never leave it.
    Misused {
        misuse: Misuse,
        method: u32,
        at: usize,
    },
    /// It is a static field of another class than the section's.
    Static,
    /// The field is neither private nor final.
    Shared,
    /// It is a guarded field of another object than the section's.
    Other,
    /// The `<init>` of that number, of the field's class, lets its object out.
    Constructor(u32),
    /// An instruction of a method writes the field on another object than `this` or in another
    /// class, or without its lock.
    Write {
        method: u32,
        at: usize,
    },
}

/// A place that an instruction reads and that others may write.
#[derive(Clone, Copy, Debug, PartialEq, Eq)]
pub enum ReadPlace {
    /// An element of an array.
    Element,
    /// The static field of that number.
    Static(u32),
    /// The field of that number of an object.
    Field(u32),
}

fn place_read(op: &Op, target: Target) -> Option<ReadPlace>
    ensures { result ≡ place_read op.now target }
{
    match op {
        Op::Iaload => Some(ReadPlace::Element),
        Op::Getstatic(_) => match target {
            Target::Field(field) => Some(ReadPlace::Static(field)),
            _ => None,
        },
        Op::Getfield(_) => match target {
            Target::Field(field) => Some(ReadPlace::Field(field)),
            _ => None,
        },
        _ => None,
    }
}

/// The place that the instruction of a number reads.
fn place_at(m: &MethodInfo, i: usize) -> Option<ReadPlace>
    ensures { result ≡ place_at (slice_get m.now.code i) (slice_get m.now.targets i) }
{
    match m.code.get(i) {
        Some(insn) => match m.targets.get(i) {
            Some(target) => place_read(&insn.op, *target),
            None => None,
        },
        None => None,
    }
}

fn site_place(p: &Program, site: Site) -> Option<ReadPlace>
    ensures { result ≡ site_place (slice_get p.now.methods site.method) site.at }
{
    match p.methods.get(site.method as usize) {
        Some(m) => place_at(m, site.at),
        None => None,
    }
}

// ---- writes

/// Whether a field is that of a number.
fn is_number(found: Option<u32>, field: u32) -> bool
    ensures { result ≡ is_number found field }
{
    match found {
        Some(number) => number == field,
        None => false,
    }
}

/// Whether an instruction writes a field without its guard.
fn writes_at(p: &Program, m: &MethodInfo, t: &Tags, field: u32, i: usize) -> bool
    ensures { result ≡ writes_at p.now m.now t.now.frames field i }
{
    is_number(unguarded_at(p, m, t, i), field)
}

/// The first instruction of a method that writes a field without its guard.
fn first_write_at(p: &Program, m: &MethodInfo, t: &Tags, field: u32) -> Option<usize>
    ensures { IsFirst (writes_at p.now m.now t.now.frames field) (length m.now.code) result }
{
    for i in 0..m.code.len() {
        if writes_at(p, m, t, field, i) {
            return Some(i);
        }
    }
    None
}

/// The same of the method of a number.
fn first_write_in(p: &Program, tags: &Rows<Tags>, method: usize, field: u32) -> Option<usize>
    ensures { IsFirstWriteOf p.now field (slice_get p.now.methods method)
        (slice_get tags.now method) result }
{
    match p.methods.get(method) {
        Some(m) => match tags.get(method) {
            Some(t) => first_write_at(p, m, t, field),
            None => None,
        },
        None => None,
    }
}

/// The first instruction of all methods that writes a field without its guard, with its method.
fn first_write(p: &Program, tags: &Rows<Tags>, field: u32) -> Option<Cause>
    requires program { IsProgram p.now }
    requires few { length p.now.methods ≤ most }
    requires there { field < length p.now.fields }
    ensures { IsWriteFound p.now (tagged_by tags.now) field result }
{
    for method in 0..p.methods.len() {
        if let Some(at) = first_write_in(p, tags, method, field) {
            return Some(Cause::Write {
                method: method as u32,
                at,
            });
        }
    }
    None
}

// ---- fields

/// What keeps a static field, or a field of a frozen class, from being read that is neither frozen
/// nor guarded.
fn loose_cause(p: &Program, tags: &Rows<Tags>, field: u32, info: &FieldInfo) -> Cause
    requires program { IsProgram p.now }
    requires few { length p.now.methods ≤ most }
    requires there { slice_get p.now.fields field ≡ Some info.now }
    requires mutable { IsMutable p.now (tagged_by tags.now) info.now }
    requires loose { ¬ IsGuardedUse p.now (tagged_by tags.now) field }
    ensures { Bars p.now (tagged_by tags.now) field result }
{
    if is_private(info.flags) {
        match first_write(p, tags, field) {
            Some(write) => write,
            None => unreachable!(),
        }
    } else {
        Cause::Shared
    }
}

/// What keeps a field from being read that is neither frozen nor guarded.
fn open_cause(
    alloc: Global,
    p: &Program,
    tags: &Rows<Tags>,
    field: u32,
) -> Result<Cause, AllocError>
    requires program { IsProgram p.now }
    requires few { length p.now.methods ≤ most }
    requires tagged { AreTaggings p.now p.now.methods tags.now }
    requires there { field < length p.now.fields }
    requires changes { ¬ IsFrozenUse p.now (tagged_by tags.now) field }
    requires loose { ¬ IsGuardedUse p.now (tagged_by tags.now) field }
    ensures { IfOk result (Bars p.now (tagged_by tags.now) field) }
{
    let info = &p.fields.as_slice()[field as usize];
    if is_static(info.flags) {
        Ok(loose_cause(p, tags, field, info))
    } else {
        match first_out(alloc, p, tags, info.class)? {
            Some(init) => Ok(Cause::Constructor(init)),
            None => Ok(loose_cause(p, tags, field, info)),
        }
    }
}

/// The same, which is looked for once for each field.
fn open_once(
    alloc: Global,
    p: &Program,
    tags: &Rows<Tags>,
    memo: &mut FieldMemo,
    field: u32,
) -> Result<Cause, AllocError>
    requires program { IsProgram p.now }
    requires few { length p.now.methods ≤ most }
    requires tagged { AreTaggings p.now p.now.methods tags.now }
    requires there { field < length p.now.fields }
    requires changes { ¬ IsFrozenUse p.now (tagged_by tags.now) field }
    requires loose { ¬ IsGuardedUse p.now (tagged_by tags.now) field }
    requires memo { IsFieldMemo p.now (tagged_by tags.now) memo.old }
    ensures memo { IsFieldMemo p.now (tagged_by tags.now) memo.new }
    ensures cause { IfOk result (Bars p.now (tagged_by tags.now) field) }
{
    if let Some(found) = memo.get(field) {
        return Ok(found);
    }
    let cause = open_cause(alloc, p, tags, field)?;
    memo.keep(field, cause);
    Ok(cause)
}

/// What keeps a field of an object from being read where that breaks M5.
fn field_cause(
    alloc: Global,
    p: &Program,
    uses: &Uses,
    tags: &Rows<Tags>,
    memo: &mut FieldMemo,
    field: u32,
) -> Result<Cause, AllocError>
    requires program { IsProgram p.now }
    requires few { length p.now.methods ≤ most }
    requires tagged { AreTaggings p.now p.now.methods tags.now }
    requires uses { AreUses p.now (tagged_by tags.now) uses.now }
    requires there { field < length p.now.fields }
    requires memo { IsFieldMemo p.now (tagged_by tags.now) memo.old }
    ensures memo { IsFieldMemo p.now (tagged_by tags.now) memo.new }
    ensures cause { IfOk result (λ cause.
        (own : Bool) → use_fault (slice_index_or uses.now.fields field open_use) own ≡ 5
        → KeepsField p.now (tagged_by tags.now) field own cause) }
{
    match use_of(&uses.fields, field) {
        FieldUse::Open => open_once(alloc, p, tags, memo, field),
        FieldUse::Guarded => Ok(Cause::Other),
        FieldUse::Frozen => Ok(Cause::Other),
    }
}

/// What keeps a static field from being read where that breaks M5.
fn static_cause(
    alloc: Global,
    p: &Program,
    uses: &Uses,
    tags: &Rows<Tags>,
    memo: &mut FieldMemo,
    mode: Mode,
    field: u32,
) -> Result<Cause, AllocError>
    requires program { IsProgram p.now }
    requires few { length p.now.methods ≤ most }
    requires tagged { AreTaggings p.now p.now.methods tags.now }
    requires uses { AreUses p.now (tagged_by tags.now) uses.now }
    requires there { field < length p.now.fields }
    requires breaks { use_fault (slice_index_or uses.now.fields field open_use)
        (is_own_class mode (class_of_field (slice_get p.now.fields field))) ≡ 5 }
    requires memo { IsFieldMemo p.now (tagged_by tags.now) memo.old }
    ensures memo { IsFieldMemo p.now (tagged_by tags.now) memo.new }
    ensures cause { IfOk result (KeepsStatic p.now (tagged_by tags.now) field
        (is_own_class mode (class_of_field (slice_get p.now.fields field)))) }
{
    if is_own_class(mode, class_of_field(p, field)) {
        open_once(alloc, p, tags, memo, field)
    } else {
        Ok(Cause::Static)
    }
}

/// What keeps an element from being read that an instruction reads which breaks M5.
fn site_element(
    alloc: Global,
    p: &Program,
    uses: &Uses,
    tags: &Rows<Tags>,
    memo: &mut FieldMemo,
    site: Site,
) -> Result<Cause, AllocError>
    requires program { IsProgram p.now }
    requires few { length p.now.methods ≤ most }
    requires tagged { AreTaggings p.now p.now.methods tags.now }
    requires uses { AreUses p.now (tagged_by tags.now) uses.now }
    requires breaks { BreaksAt p.now (tagged_by tags.now) uses.now (callee_of site) site.at 5 }
    requires read { site_place (slice_get p.now.methods site.method) site.at ≡ Some element }
    requires memo { IsArrayMemo p.now (tagged_by tags.now) memo.old }
    ensures memo { IsArrayMemo p.now (tagged_by tags.now) memo.new }
    ensures cause { IfOk result (λ cause. (m : MethodInfo)
        → slice_get p.now.methods site.method ≡ Some m
        → KeepsElement p.now (tagged_by tags.now) site.mode m site.at cause) }
{
    match p.methods.get(site.method as usize) {
        Some(m) => element_cause(alloc, p, tags, memo, site, m),
        None => unreachable!(),
    }
}

/// What keeps a place from being read, which an instruction reads that breaks M5.
fn place_cause(
    alloc: Global,
    p: &Program,
    uses: &Uses,
    tags: &Rows<Tags>,
    memo: &mut CauseMemo,
    site: Site,
    place: ReadPlace,
) -> Result<Cause, AllocError>
    requires program { IsProgram p.now }
    requires few { length p.now.methods ≤ most }
    requires tagged { AreTaggings p.now p.now.methods tags.now }
    requires uses { AreUses p.now (tagged_by tags.now) uses.now }
    requires breaks { BreaksAt p.now (tagged_by tags.now) uses.now (callee_of site) site.at 5 }
    requires read { site_place (slice_get p.now.methods site.method) site.at ≡ Some place }
    requires memo { IsCauseMemo p.now (tagged_by tags.now) memo.old }
    ensures memo { IsCauseMemo p.now (tagged_by tags.now) memo.new }
    ensures cause { IfOk result (IsCause p.now (tagged_by tags.now) (callee_of site) site.at) }
{
    match place {
        ReadPlace::Element => site_element(alloc, p, uses, tags, &mut memo.arrays, site),
        ReadPlace::Static(field) => static_cause(
            alloc,
            p,
            uses,
            tags,
            &mut memo.fields,
            site.mode,
            field,
        ),
        ReadPlace::Field(field) => field_cause(alloc, p, uses, tags, &mut memo.fields, field),
    }
}

/// What keeps the place from being read that an instruction reads which breaks M5.
pub fn cause_of(
    alloc: Global,
    p: &Program,
    uses: &Uses,
    tags: &Rows<Tags>,
    memo: &mut CauseMemo,
    site: Site,
) -> Result<Cause, AllocError>
    requires program { IsProgram p.now }
    requires few { length p.now.methods ≤ most }
    requires tagged { AreTaggings p.now p.now.methods tags.now }
    requires uses { AreUses p.now (tagged_by tags.now) uses.now }
    requires breaks { BreaksAt p.now (tagged_by tags.now) uses.now (callee_of site) site.at 5 }
    requires memo { IsCauseMemo p.now (tagged_by tags.now) memo.old }
    ensures memo { IsCauseMemo p.now (tagged_by tags.now) memo.new }
    ensures cause { IfOk result (IsCause p.now (tagged_by tags.now) (callee_of site) site.at) }
{
    match site_place(p, site) {
        Some(place) => place_cause(alloc, p, uses, tags, memo, site, place),
        None => unreachable!(),
    }
}
