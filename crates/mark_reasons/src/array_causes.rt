//! What keeps a section from an element that it reads (M5).

ghost use Rattle.std.specs.Prelude.{◌≡◌, ◌≤◌, ◌==◌, ℕ, Some, true, length, slice_get, IfOk};
ghost use Rattle.jvm_types.specs.ProgramInvariant.{IsProgram};
ghost use Rattle.jvm_types.specs.Verifying.{IsLaidOut};
ghost use Rattle.jvm_types.specs.declared.limits.TheConstants.{MOST_INSTRUCTIONS as most};
ghost use Rattle.checked_program.specs.MarkedProgram.{AreTaggings};
ghost use Rattle.checked_program.specs.OwnedArrays.{IsOwnedArrayField, ReadsOwned};
ghost use Rattle.checked_program.specs.TaggedCode.{tagged_by};
ghost use Rattle.checked_program.specs.declared.section.Mode.TheVariants.{OnThis as on_this};
ghost use Rattle.guard_analysis.specs.ColourVisits.{is_array_field};
ghost use Rattle.mark_reasons.specs.ArrayCauses.{IsArrayMemo, IsMisuseFound, IsMisuseIf};
ghost use Rattle.mark_reasons.specs.ArrayCauses.{IsMisuseIn, KeepsArrayFrom, KeepsArrays};
ghost use Rattle.mark_reasons.specs.ArrayCauses.{KeepsElement};

use crate::cause::Cause;
use crate::cause_memo::FieldMemo;
use crate::reason::Site;
use checked_program::{Mode, Tags};
use frozen_classes::first_out;
use guard_analysis::array_faults::{Against, first_against, read_from};
use jvm_types::{FieldInfo, MethodInfo, Program, Rows};
use std::alloc::{AllocError, Global};

/// The first instruction of a method that counts against a field, if the method is of its class.
fn misuse_of(
    alloc: Global,
    p: &Program,
    m: &MethodInfo,
    t: &Tags,
    class: u16,
    field: u32,
) -> Result<Option<Against>, AllocError>
    requires { IsLaidOut m.now }
    ensures { IfOk result (IsMisuseIf (m.now.class == class) p.now field m.now t.now.frames) }
{
    if m.class == class {
        first_against(alloc, p, m, t, field as usize)
    } else {
        Ok(None)
    }
}

/// The same of the method of a number.
fn misuse_in(
    alloc: Global,
    p: &Program,
    tags: &Rows<Tags>,
    method: usize,
    class: u16,
    field: u32,
) -> Result<Option<Against>, AllocError>
    requires { IsProgram p.now }
    ensures { IfOk result (IsMisuseIn p.now (tagged_by tags.now) class field method) }
{
    match p.methods.get(method) {
        Some(m) => match tags.get(method) {
            Some(t) => misuse_of(alloc, p, m, t, class, field),
            None => Ok(None),
        },
        None => Ok(None),
    }
}

/// The first instruction of all methods of a class that counts against a field of it.
fn first_misuse(
    alloc: Global,
    p: &Program,
    tags: &Rows<Tags>,
    class: u16,
    field: u32,
) -> Result<Option<Cause>, AllocError>
    requires program { IsProgram p.now }
    requires few { length p.now.methods ≤ most }
    ensures { IfOk result (IsMisuseFound p.now (tagged_by tags.now) class field) }
{
    for method in 0..p.methods.len() {
        if let Some(against) = misuse_in(alloc, p, tags, method, class, field)? {
            return Ok(Some(Cause::Misused {
                misuse: against.misuse,
                method: method as u32,
                at: against.at,
            }));
        }
    }
    Ok(None)
}

/// What keeps the arrays of a field from staying in their objects.
fn arrays_cause(
    alloc: Global,
    p: &Program,
    tags: &Rows<Tags>,
    field: u32,
    info: &FieldInfo,
) -> Result<Cause, AllocError>
    requires program { IsProgram p.now }
    requires few { length p.now.methods ≤ most }
    requires tagged { AreTaggings p.now p.now.methods tags.now }
    requires there { slice_get p.now.fields field ≡ Some info.now }
    requires array { is_array_field p.now field ≡ true }
    requires loose { ¬ IsOwnedArrayField p.now (tagged_by tags.now) field }
    ensures { IfOk result (KeepsArrays p.now (tagged_by tags.now) field (Some info.now)) }
{
    if let Some(init) = first_out(alloc, p, tags, info.class)? {
        return Ok(Cause::Constructor(init));
    }
    match first_misuse(alloc, p, tags, info.class, field)? {
        Some(misused) => Ok(misused),
        None => unreachable!(),
    }
}

/// The same, which is looked for once for each field.
fn arrays_once(
    alloc: Global,
    p: &Program,
    tags: &Rows<Tags>,
    memo: &mut FieldMemo,
    field: u32,
    info: &FieldInfo,
) -> Result<Cause, AllocError>
    requires program { IsProgram p.now }
    requires few { length p.now.methods ≤ most }
    requires tagged { AreTaggings p.now p.now.methods tags.now }
    requires there { slice_get p.now.fields field ≡ Some info.now }
    requires array { is_array_field p.now field ≡ true }
    requires loose { ¬ IsOwnedArrayField p.now (tagged_by tags.now) field }
    requires memo { IsArrayMemo p.now (tagged_by tags.now) memo.old }
    ensures memo { IsArrayMemo p.now (tagged_by tags.now) memo.new }
    ensures cause { IfOk result (KeepsArrays p.now (tagged_by tags.now) field (Some info.now)) }
{
    if let Some(found) = memo.get(field) {
        return Ok(found);
    }
    let cause = arrays_cause(alloc, p, tags, field, info)?;
    memo.keep(field, cause);
    Ok(cause)
}

/// What keeps an element of an array that was read from a field, or from none that is known.
fn array_cause(
    alloc: Global,
    p: &Program,
    tags: &Rows<Tags>,
    memo: &mut FieldMemo,
    from: Option<u32>,
) -> Result<Cause, AllocError>
    requires program { IsProgram p.now }
    requires few { length p.now.methods ≤ most }
    requires tagged { AreTaggings p.now p.now.methods tags.now }
    requires arrays { (fi : ℕ) → from ≡ Some fi → is_array_field p.now fi ≡ true }
    requires loose { (fi : ℕ) → from ≡ Some fi
        → ¬ IsOwnedArrayField p.now (tagged_by tags.now) fi }
    requires memo { IsArrayMemo p.now (tagged_by tags.now) memo.old }
    ensures memo { IsArrayMemo p.now (tagged_by tags.now) memo.new }
    ensures cause { IfOk result (KeepsArrayFrom p.now (tagged_by tags.now) from) }
{
    match from {
        Some(field) => match p.fields.get(field as usize) {
            Some(info) => arrays_once(alloc, p, tags, memo, field, info),
            None => unreachable!(),
        },
        None => Ok(Cause::Element),
    }
}

/// What keeps the element from being read that an instruction reads, in a method that a section
/// runs so.
pub fn element_cause(
    alloc: Global,
    p: &Program,
    tags: &Rows<Tags>,
    memo: &mut FieldMemo,
    site: Site,
    m: &MethodInfo,
) -> Result<Cause, AllocError>
    requires program { IsProgram p.now }
    requires few { length p.now.methods ≤ most }
    requires tagged { AreTaggings p.now p.now.methods tags.now }
    requires there { slice_get p.now.methods site.method ≡ Some m.now }
    requires loose { site.mode ≡ on_this
        → ¬ ReadsOwned p.now (tagged_by tags.now) site.method site.at }
    requires memo { IsArrayMemo p.now (tagged_by tags.now) memo.old }
    ensures memo { IsArrayMemo p.now (tagged_by tags.now) memo.new }
    ensures cause { IfOk result (KeepsElement p.now (tagged_by tags.now) site.mode m.now site.at) }
{
    match site.mode {
        Mode::OnThis => {
            let from = read_from(alloc, p, m, site.at)?;
            array_cause(alloc, p, tags, memo, from)
        }
        Mode::OffThis => Ok(Cause::Element),
        Mode::OnClass(_) => Ok(Cause::Element),
    }
}
