//! Which elements are read from arrays that never leave their objects, by all methods.

ghost use Rattle.std.specs.Prelude.{◌≡◌, ◌≤◌, ◌&&◌, [], false, not, length, replicate, slice_get};
ghost use Rattle.std.specs.Prelude.{slice_index_or, IfOk};
ghost use Rattle.checked_program.specs.TaggedCode.{tagged_by};
ghost use Rattle.checked_program.specs.MarkedProgram.{AreTaggings};
ghost use Rattle.checked_program.specs.Visits.{HasFrames};
ghost use Rattle.frozen_classes.specs.FrozenClasses.{AreFrozenClasses};
ghost use Rattle.jvm_types.specs.ProgramInvariant.{IsProgram};
ghost use Rattle.jvm_types.specs.Verifying.{IsLaidOut};
ghost use Rattle.guard_analysis.specs.ColourVisits.{colour_at, colour_plan};
ghost use Rattle.guard_analysis.specs.OwnedFound.{element_flags_before, element_rows_before};
ghost use Rattle.guard_analysis.specs.OwnedFound.{fields_left_before, is_flagged, may_own};
ghost use Rattle.guard_analysis.specs.OwnedFound.{owning_before, AreOwnedFound};
ghost use Rattle.guard_analysis.specs.OwnedFound.{AreMethodsChecked, IsMethodChecked};
ghost use Rattle.guard_analysis.specs.declared.colouring.Colour.TheVariants.{Plain as plain};

use crate::array_uses::{branched_to, check_insns, read_colours, set_flag};
use crate::callees::flag_at;
use crate::colouring::{Colour, Colouring, may_be_owned};
use crate::field_uses::{class_flag, no_flags};
use crate::row_work::{row_budget, spend_rows};
use checked_program::Tags;
use code_visits::{Budget, MOST_KEPT, Stop, visit_all};
use handler_rows::HandledMethod;
use jvm_types::class_numbers::FIRST_FILE_CLASS;
use jvm_types::{MethodInfo, Program, Rows, Stack};
use std::alloc::{AllocError, Global};

/// The colours before each instruction of a method.
pub fn colour_frames(
    alloc: Global,
    p: &Program,
    m: &MethodInfo,
) -> Result<Rows<Option<Stack<Colour>>>, AllocError>
    requires { IsLaidOut m.now }
    ensures { IfOk result (HasFrames (colour_plan p.now m.now)) }
{
    let mut budget = Budget::of(MOST_KEPT);
    match visit_all::<Colouring>(alloc, p, m, &mut budget) {
        Ok(frames) => Ok(frames),
        Err(Stop::Memory) => Err(AllocError),
        Err(Stop::Refused(_, _)) => unreachable!(),
    }
}

/// Puts out the fields that a method uses otherwise than owned ones; answers the colours of the
/// arrays that it reads elements of.
fn check_method(
    alloc: Global,
    p: &Program,
    method: &MethodInfo,
    tags: &Tags,
    outs: &mut Rows<bool>,
    budget: &mut Budget,
) -> Result<Rows<Colour>, AllocError>
    requires { IsLaidOut method.now }
    ensures { IfOk result (IsMethodChecked p.now method.now tags.now.frames outs.old outs.new) }
{
    spend_rows(budget, method)?;
    let m = HandledMethod::of(alloc, method)?;
    let frames = colour_frames(alloc, p, method)?;
    let branched = branched_to(alloc, &m)?;
    check_insns(alloc, p, &m, tags, branched.as_slice(), &frames, outs)?;
    read_colours(alloc, method, &frames)
}

/// Whether a field may be owned by its flags and its type, and its class is frozen.
fn may_own(p: &Program, frozen: &[bool], field: usize) -> bool
    ensures { result ≡ may_own p.now frozen.now field (slice_get p.now.fields field) }
{
    match p.fields.get(field) {
        Some(info) => may_be_owned(info) && class_flag(frozen, info.class),
        None => false,
    }
}

/// The classes of files that have such a field, flagged.
fn owning_classes(alloc: Global, p: &Program, frozen: &[bool]) -> Result<Rows<bool>, AllocError>
    ensures { IfOk result
        (λ flags. flags ≡ owning_before p.now frozen.now (length p.now.fields)) }
{
    let mut flags = no_flags(alloc, frozen.len())?;
    for field in 0..p.fields.len() {
        if may_own(p, frozen, field) {
            if let Some(info) = p.fields.get(field) {
                set_flag(&mut flags, Some((info.class - FIRST_FILE_CLASS) as usize));
            }
        }
    }
    Ok(flags)
}

/// Checks the methods of the flagged classes.
fn check_methods(
    alloc: Global,
    p: &Program,
    tags: &Rows<Tags>,
    owning: &[bool],
    outs: &mut Rows<bool>,
) -> Result<Rows<Rows<Colour>>, AllocError>
    requires program { IsProgram p.now }
    requires tags { length p.now.methods ≤ length tags.now }
    requires none { outs.old ≡ replicate (length p.now.fields) false }
    ensures { IfOk result (AreMethodsChecked p.now tags.now owning.now (length p.now.methods)
        outs.new) }
{
    let mut reads = Rows::new(alloc);
    let mut budget = row_budget(p);
    for u in 0..p.methods.len() {
        let m = &p.methods.as_slice()[u];
        let t = &tags.as_slice()[u];
        let colours = if class_flag(owning, m.class) {
            check_method(alloc, p, m, t, outs, &mut budget)?
        } else {
            Rows::new(alloc)
        };
        reads.push(colours)?;
    }
    Ok(reads)
}

/// The fields that are not out, of those that may be owned.
fn fields_left(
    alloc: Global,
    p: &Program,
    frozen: &[bool],
    outs: &[bool],
) -> Result<Rows<bool>, AllocError>
    ensures { IfOk result (λ owned.
        owned ≡ fields_left_before p.now frozen.now outs.now (length p.now.fields)) }
{
    let mut owned = Rows::new(alloc);
    for field in 0..p.fields.len() {
        owned.push(may_own(p, frozen, field) && !flag_at(outs, field))?;
    }
    Ok(owned)
}

fn colour_of(colours: &[Colour], i: usize) -> Colour
    ensures { result ≡ colour_at colours.now i }
{
    if i < colours.len() {
        colours[i]
    } else {
        Colour::Plain
    }
}

fn is_flagged(flags: &[bool], colour: Colour) -> bool
    ensures { result ≡ is_flagged flags.now colour }
{
    match colour {
        Colour::Of(field) => flag_at(flags, field as usize),
        Colour::Plain => false,
    }
}

/// For each of so many instructions, whether the array that it reads an element of is of a flagged
/// field.
fn element_flags(
    alloc: Global,
    owned: &[bool],
    colours: &[Colour],
    count: usize,
) -> Result<Rows<bool>, AllocError>
    ensures { IfOk result (λ flags. flags ≡ element_flags_before owned.now colours.now count) }
{
    let mut flags = Rows::new(alloc);
    for i in 0..count {
        flags.push(is_flagged(owned, colour_of(colours, i)))?;
    }
    Ok(flags)
}

fn element_rows(
    alloc: Global,
    p: &Program,
    owned: &[bool],
    reads: &Rows<Rows<Colour>>,
) -> Result<Rows<Rows<bool>>, AllocError>
    requires { length p.now.methods ≤ length reads.now }
    ensures { IfOk result (λ rows. rows
        ≡ element_rows_before p.now.methods owned.now reads.now (length p.now.methods)) }
{
    let mut rows = Rows::new(alloc);
    for u in 0..p.methods.len() {
        let m = &p.methods.as_slice()[u];
        let colours = &reads.as_slice()[u];
        rows.push(element_flags(alloc, owned, colours.as_slice(), m.code.len())?)?;
    }
    Ok(rows)
}

/// Which fields own their arrays; and for each method, of each instruction, whether it reads an
/// element of an array that `this` owns.
#[derive(Debug, Drop)]
pub struct Owned {
    pub owners: Rows<bool>,
    pub elements: Rows<Rows<bool>>,
}

/// What is owned. `tags` has the lock tags of each method, `frozen` a flag for the class of each
/// file. The error is that memory was refused.
pub fn find_owned(
    alloc: Global,
    p: &Program,
    tags: &Rows<Tags>,
    frozen: &Rows<bool>,
) -> Result<Owned, AllocError>
    requires program { IsProgram p.now }
    requires tagged { AreTaggings p.now p.now.methods tags.now }
    requires frozen { AreFrozenClasses p.now (tagged_by tags.now) frozen.now }
    ensures { IfOk result (AreOwnedFound p.now (tagged_by tags.now)) }
{
    let owning = owning_classes(alloc, p, frozen.as_slice())?;
    let mut outs = no_flags(alloc, p.fields.len())?;
    let reads = check_methods(alloc, p, tags, owning.as_slice(), &mut outs)?;
    let owners = fields_left(alloc, p, frozen.as_slice(), outs.as_slice())?;
    let elements = element_rows(alloc, p, owners.as_slice(), &reads)?;
    Ok(Owned { owners, elements })
}
