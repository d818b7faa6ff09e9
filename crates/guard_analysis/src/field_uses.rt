//! How each field may be read by a section that runs without its lock.

ghost use Rattle.std.specs.Prelude.{◌≡◌, ◌<◌, false, length, replicate, slice_get, slice_index_or};
ghost use Rattle.std.specs.Prelude.{IfOk};
ghost use Rattle.std.specs.List.{list_any};
ghost use Rattle.jvm_types.specs.ProgramInvariant.{IsProgram};
ghost use Rattle.checked_program.specs.LockTags.{is_this};
ghost use Rattle.checked_program.specs.declared.tag.Tag.TheVariants.{Untagged as untagged};
ghost use Rattle.checked_program.specs.TaggedCode.{tagged_by};
ghost use Rattle.jvm_types.specs.Members.{is_class_init_name};
ghost use Rattle.checked_program.specs.FrozenPlaces.{stands_guarded, AreFieldUses};
ghost use Rattle.frozen_classes.specs.FrozenClasses.{AreFrozenClasses};
ghost use Rattle.guard_analysis.specs.FieldUses.{class_flag, field_noted, noted_before, noted_in};
ghost use Rattle.guard_analysis.specs.FieldUses.{unguarded_at, unguarded_before, unguarded_write};
ghost use Rattle.guard_analysis.specs.FieldUses.{use_at, use_by, uses_before, writes_class_of};
ghost use Rattle.guard_analysis.specs.FieldUses.{writes_guarded};

use crate::callees::flag_at;
use crate::faults::{locks_class, locks_this};
use crate::tag_reading::{is_this, stack_tag};
use checked_program::{FieldUse, Tag, TagFrame, Tags};
use code_table::is_init;
use jvm_types::class_numbers::FIRST_FILE_CLASS;
use jvm_types::flags::{is_final, is_private, is_static};
use jvm_types::{FieldInfo, MethodInfo, Op, Program, Rows, Stack, Target};
use std::alloc::{AllocError, Global};

fn held_tag(held: &Stack<Tag>, place: usize) -> Tag
    requires { place < length held.now }
    ensures { result ≡ slice_index_or held.now place untagged }
{
    match held.get(place) {
        Some(t) => *t,
        None => unreachable!(),
    }
}

/// Whether the monitor of this is among those that a method has entered.
fn holds_this(held: &Stack<Tag>) -> bool
    ensures { result ≡ list_any is_this held.now }
{
    for place in 0..held.len() {
        if is_this(held_tag(held, place)) {
            return true;
        }
    }
    false
}

/// Whether an instruction stands in an `<init>`, or with the monitor of this held.
pub fn stands_guarded(m: &MethodInfo, frame: &TagFrame) -> bool
    ensures { result ≡ stands_guarded m.now frame.now }
{
    is_init(m) || (holds_this(frame.held()) || locks_this(m))
}

/// Whether a `putfield` is on this, in an `<init>` or with the monitor of this held.
pub fn writes_guarded(m: &MethodInfo, frame: &TagFrame) -> bool
    ensures { result ≡ writes_guarded m.now frame.now }
{
    is_this(stack_tag(frame, 1)) && stands_guarded(m, frame)
}

/// Whether a method may write a guarded static field: the `<clinit>` of its class, and the static
/// synchronized methods of that.
fn writes_class(p: &Program, field: u32, m: &MethodInfo) -> bool
    ensures { result ≡ writes_class_of (slice_get p.now.fields field) m.now }
{
    match p.fields.get(field as usize) {
        Some(info) => m.class == info.class && (is_class_init(m) || locks_class(m)),
        None => false,
    }
}

/// Whether a method begins a class (JVMS 2.9).
fn is_class_init(m: &MethodInfo) -> bool
    ensures { result ≡ is_class_init_name m.now.name }
{
    m.name.as_slice() == b"<clinit>".as_slice()
}

/// The field that an instruction writes without its guard.
fn unguarded_write(
    p: &Program,
    m: &MethodInfo,
    op: &Op,
    target: Target,
    frame: &TagFrame,
) -> Option<u32>
    ensures { result ≡ unguarded_write p.now m.now op.now target frame.now }
{
    match op {
        Op::Putstatic(_) => match target {
            Target::Field(field) => {
                if writes_class(p, field, m) {
                    None
                } else {
                    Some(field)
                }
            }
            _ => None,
        },
        Op::Putfield(_) => match target {
            Target::Field(field) => {
                if writes_guarded(m, frame) {
                    None
                } else {
                    Some(field)
                }
            }
            _ => None,
        },
        _ => None,
    }
}

/// The same of the instruction of a number, where it is reached.
pub fn unguarded_at(p: &Program, m: &MethodInfo, tags: &Tags, i: usize) -> Option<u32>
    ensures { result ≡ unguarded_at p.now m.now (slice_get m.now.code i) (slice_get m.now.targets i)
        (slice_get tags.now.frames i) }
{
    match m.code.get(i) {
        Some(insn) => match m.targets.get(i) {
            Some(target) => match tags.frames.get(i) {
                Some(Some(f)) => unguarded_write(p, m, &insn.op, *target, f),
                Some(None) => None,
                None => None,
            },
            None => None,
        },
        None => None,
    }
}

/// The flag of a field that was found is set.
pub fn note(flags: &mut Rows<bool>, found: Option<u32>)
    ensures { flags.new ≡ field_noted flags.old found }
{
    match found {
        Some(field) => {
            if (field as usize) < flags.len() {
                flags.set(field as usize, true);
            }
        }
        None => {}
    }
}

/// Notes each field that a method writes without its guard.
fn note_writes(p: &Program, m: &MethodInfo, tags: &Tags, flags: &mut Rows<bool>)
    ensures { flags.new ≡ noted_before p.now m.now tags.now.frames flags.old (length m.now.code) }
{
    for i in 0..m.code.len() {
        note(flags, unguarded_at(p, m, tags, i));
    }
}

/// Notes those of the method of a number.
fn note_method(p: &Program, tags: &Rows<Tags>, method: usize, flags: &mut Rows<bool>)
    ensures { flags.new
        ≡ noted_in p.now (slice_get p.now.methods method) (slice_get tags.now method) flags.old }
{
    match p.methods.get(method) {
        Some(m) => match tags.get(method) {
            Some(t) => note_writes(p, m, t, flags),
            None => {}
        },
        None => {}
    }
}

pub fn no_flags(alloc: Global, len: usize) -> Result<Rows<bool>, AllocError>
    ensures { IfOk result (λ flags. flags ≡ replicate len false) }
{
    Ok(Rows::from_vec(vec![in alloc; false; len]?))
}

/// Of each field whether some reached instruction writes it without its guard.
fn unguarded_fields(alloc: Global, p: &Program, tags: &Rows<Tags>) -> Result<Rows<bool>, AllocError>
    ensures { IfOk result
        (λ flags. flags ≡ unguarded_before p.now tags.now (length p.now.methods)) }
{
    let mut flags = no_flags(alloc, p.fields.len())?;
    for u in 0..p.methods.len() {
        note_method(p, tags, u, &mut flags);
    }
    Ok(flags)
}

fn use_by(field: &FieldInfo, frozen: bool, unguarded: bool) -> FieldUse
    ensures { result ≡ use_by field.now frozen unguarded }
{
    if !is_static(field.flags) && !frozen {
        FieldUse::Open
    } else if is_final(field.flags) {
        FieldUse::Frozen
    } else if is_private(field.flags) && !unguarded {
        FieldUse::Guarded
    } else {
        FieldUse::Open
    }
}

/// The flag of the class of a file; false where there are not so many.
pub fn class_flag(flags: &[bool], class: u16) -> bool
    ensures { result ≡ class_flag flags.now class }
{
    if class < FIRST_FILE_CLASS {
        false
    } else {
        flag_at(flags, (class - FIRST_FILE_CLASS) as usize)
    }
}

fn use_at(p: &Program, frozen: &[bool], unguarded: &[bool], field: usize) -> FieldUse
    ensures { result ≡ use_at (slice_get p.now.fields field) frozen.now
        (slice_index_or unguarded.now field false) }
{
    match p.fields.get(field) {
        Some(info) => use_by(
            info,
            class_flag(frozen, info.class),
            flag_at(unguarded, field),
        ),
        None => FieldUse::Open,
    }
}

fn all_uses(
    alloc: Global,
    p: &Program,
    frozen: &[bool],
    unguarded: &[bool],
) -> Result<Rows<FieldUse>, AllocError>
    ensures { IfOk result
        (λ uses. uses ≡ uses_before p.now.fields frozen.now unguarded.now (length p.now.fields)) }
{
    let mut uses = Rows::new(alloc);
    for field in 0..p.fields.len() {
        uses.push(use_at(p, frozen, unguarded, field))?;
    }
    Ok(uses)
}

/// How each field may be read, in order of the fields. `frozen` has a flag for the class of each
/// file. The error is that memory was refused.
pub fn field_uses_of(
    alloc: Global,
    p: &Program,
    tags: &Rows<Tags>,
    frozen: &Rows<bool>,
) -> Result<Rows<FieldUse>, AllocError>
    requires program { IsProgram p.now }
    requires frozen { AreFrozenClasses p.now (tagged_by tags.now) frozen.now }
    ensures { IfOk result (AreFieldUses p.now (tagged_by tags.now)) }
{
    let unguarded = unguarded_fields(alloc, p, tags)?;
    let uses = all_uses(alloc, p, frozen.as_slice(), unguarded.as_slice())?;
    Ok(uses)
}
