//! The mark of each section, from the rules that forbid the instructions that it covers.

ghost use Rattle.std.specs.Prelude.{◌≡◌, ◌<◌, ◌*◌, replicate, ◌≤◌, ◌+◌, Some, None, if◌then◌else◌};
ghost use Rattle.std.specs.Prelude.{length, map, slice_get, slice_index, slice_index_or, IfOk};
ghost use Rattle.std.specs.Prelude.{OnOk};
ghost use Rattle.checked_program.specs.LockTags.{is_this};
ghost use Rattle.checked_program.specs.declared.tag.Tag.TheVariants.{Untagged as untagged};
ghost use Rattle.std.specs.List.{AllZip, filter_map};
ghost use Rattle.jvm_types.specs.ProgramInvariant.{IsProgram};
ghost use Rattle.jvm_types.specs.declared.limits.TheConstants.{MOST_INSTRUCTIONS as most};
ghost use Rattle.checked_program.specs.MarkedProgram.{AreTaggings};
ghost use Rattle.checked_program.specs.TaggedCode.{tagged_by};
ghost use Rattle.checked_program.specs.Sections.{block_at, mode_of_method, mode_of_spot, sections};
ghost use Rattle.checked_program.specs.Sections.{spots_of};
ghost use Rattle.checked_program.specs.declared.section.Mode.TheVariants.{OnThis as on_this};
ghost use Rattle.checked_program.specs.Marks.{AreMarks, IsMarkOf};
ghost use Rattle.jvm_types.specs.Verifying.{IsLaidOut};
ghost use Rattle.graph_closure.specs.LeastSet.{IsGraph};
ghost use Rattle.guard_analysis.specs.CallGraph.{call_graph};
ghost use Rattle.guard_analysis.specs.BlockReach.{AreReaches};
ghost use Rattle.guard_analysis.specs.BlockWalks.{IsInside};
ghost use Rattle.std.specs.Option.{IfSome};
ghost use Rattle.guard_analysis.specs.Faults.{AreCallees, FitsMethod, grades_before};
ghost use Rattle.guard_analysis.specs.SectionGrades.{entry_depth_at, earlier, whole_of};
ghost use Rattle.guard_analysis.specs.SectionGrades.{earliest_before, section_in, sections_at};
ghost use Rattle.guard_analysis.specs.SectionGrades.{AreGrades, IsBlockMark, IsFirstOf, Marks};

use crate::block_reach::Reaches;
use crate::block_walk::Walk;
use crate::callees::Callees;
use crate::faults::locks_class;
use crate::readable::uses;
use crate::row_work::{row_budget, spend_for_blocks};
use crate::tag_reading::{is_this, stack_tag};
use checked_program::{Mode, SectionMark, Spot, TagFrame, Tags, Uses};
use code_table::IndexedMethod;
use frozen_classes::frozen_classes;
use jvm_types::flags::{is_static, is_synchronized};
use jvm_types::{MethodInfo, Op, Program, Rows};
use std::alloc::{AllocError, Global};

/// Of two rules the one that is tested first; 0 is none.
fn earlier(n: u8, k: u8) -> u8
    ensures { result ≡ earlier n k }
{
    if k == 0 {
        n
    } else if n == 0 {
        k
    } else if k < n {
        k
    } else {
        n
    }
}

fn rule_at(rules: &[u8], i: usize) -> u8
    ensures { result ≡ slice_index rules.now i }
{
    if i < rules.len() { rules[i] } else { 0 }
}

/// The first of all rules.
fn earliest(rules: &[u8]) -> u8
    ensures { result ≡ earliest_before (λ i. slice_index rules.now i) (length rules.now) }
{
    let mut first = 0;
    for i in 0..rules.len() {
        first = earlier(first, rule_at(rules, i));
    }
    first
}

/// How many monitors are held where a block would begin, where it would be on this.
fn depth_of(frame: &TagFrame) -> Option<usize>
    ensures { result ≡ (if is_this (slice_index_or frame.now.stack 0 untagged) then Some
        (length frame.now.held) else None) }
{
    if is_this(stack_tag(frame, 0)) {
        Some(frame.held().len())
    } else {
        None
    }
}

pub fn depth_at(m: &MethodInfo, tags: &Tags, i: usize) -> Option<usize>
    ensures { result ≡ entry_depth_at m.now tags.now.frames i }
{
    match m.code.get(i) {
        Some(_) => match m.targets.get(i) {
            Some(_) => match tags.frames.get(i) {
                Some(Some(f)) => depth_of(f),
                Some(None) => None,
                None => None,
            },
            None => None,
        },
        None => None,
    }
}

/// What the instructions of a method lead to, where that is not known yet.
fn reaches_of(
    alloc: Global,
    known: Option<Reaches>,
    m: &IndexedMethod<'_>,
    tags: &Tags,
    grades: &[u8],
) -> Result<Reaches, AllocError>
    requires { IfSome known (AreReaches m.now tags.now.frames grades.now) }
    ensures { IfOk result (AreReaches m.now tags.now.frames grades.now) }
{
    match known {
        Some(reaches) => Ok(reaches),
        None => Reaches::of(alloc, m, tags, grades),
    }
}

/// The mark of the block on this whose `monitorenter` has this number and stands where so many
/// monitors are held.
fn mark_inside(
    alloc: Global,
    known: &mut Option<Reaches>,
    m: &IndexedMethod<'_>,
    tags: &Tags,
    grades: &[u8],
    depth: usize,
    i: usize,
) -> Result<u8, AllocError>
    requires known { IfSome known.old (AreReaches m.now tags.now.frames grades.now) }
    ensures mark { IfOk result
        (IsFirstOf (IsInside m.now tags.now.frames depth i) (λ t. slice_index grades.now t)) }
    ensures known { OnOk result
        (IfSome known.new (AreReaches m.now tags.now.frames grades.now)) }
{
    let reaches = reaches_of(alloc, known.take(), m, tags, grades)?;
    let mark = reaches.first_rule(alloc, m, depth, i)?;
    *known = Some(reaches);
    Ok(mark)
}

/// The mark of the block whose `monitorenter` has this number.
fn mark_block(
    alloc: Global,
    known: &mut Option<Reaches>,
    m: &IndexedMethod<'_>,
    tags: &Tags,
    grades: &[u8],
    i: usize,
) -> Result<u8, AllocError>
    requires known { IfSome known.old (AreReaches m.now tags.now.frames grades.now) }
    ensures mark { IfOk result
        (IsBlockMark m.now tags.now.frames grades.now i (entry_depth_at m.now tags.now.frames i)) }
    ensures known { OnOk result
        (IfSome known.new (AreReaches m.now tags.now.frames grades.now)) }
{
    match depth_at(m.method(), tags, i) {
        Some(depth) => mark_inside(alloc, known, m, tags, grades, depth, i),
        None => Ok(8),
    }
}

/// Adds the mark of the block that begins at an instruction, where one does.
fn mark_at(
    alloc: Global,
    known: &mut Option<Reaches>,
    p: &Program,
    uses: &Uses,
    method: u32,
    m: &IndexedMethod<'_>,
    tags: &Rows<Tags>,
    t: &Tags,
    grades: &[u8],
    i: usize,
    marks: &mut Rows<SectionMark>,
) -> Result<(), AllocError>
    requires program { IsProgram p.now }
    requires there { slice_get p.now.methods method ≡ Some m.now }
    requires tagged { slice_get tags.now method ≡ Some t.now }
    requires grades { AreGrades p.now (tagged_by tags.now) uses.now on_this method m.now
        grades.now }
    requires known { IfSome known.old (AreReaches m.now t.now.frames grades.now) }
    ensures marks { OnOk result (Marks p.now (tagged_by tags.now) uses.now
        (sections_at method (slice_get m.now.code i)) marks.old marks.new) }
    ensures known { OnOk result (IfSome known.new (AreReaches m.now t.now.frames grades.now)) }
{
    match m.method().code.get(i) {
        Some(insn) => match insn.op {
            Op::Monitorenter => {
                let mark = mark_block(alloc, known, m, t, grades, i)?;
                marks.push(SectionMark {
                    method,
                    spot: Spot::Block(insn.pc),
                    mark,
                })?;
                Ok(())
            }
            _ => Ok(()),
        },
        None => Ok(()),
    }
}

/// A walk that has come to nothing, in a method of so many instructions.
pub fn fresh_walk(alloc: Global, len: usize) -> Result<Walk, AllocError>
    ensures { IfOk result (λ w. w.seen ≡ replicate len 0) }
{
    Ok(Walk {
        seen: Rows::from_vec(vec![in alloc; 0; len]?),
        own: Rows::new(alloc),
    })
}

/// Adds the marks of the blocks of a method.
fn mark_blocks(
    alloc: Global,
    p: &Program,
    uses: &Uses,
    method: u32,
    m: &IndexedMethod<'_>,
    tags: &Rows<Tags>,
    t: &Tags,
    grades: &[u8],
    marks: &mut Rows<SectionMark>,
) -> Result<(), AllocError>
    requires program { IsProgram p.now }
    requires there { slice_get p.now.methods method ≡ Some m.now }
    requires tagged { slice_get tags.now method ≡ Some t.now }
    requires grades { AreGrades p.now (tagged_by tags.now) uses.now on_this method m.now
        grades.now }
    ensures { OnOk result (Marks p.now (tagged_by tags.now) uses.now
        (map (section_in method) (filter_map (λ insn. block_at insn.pc insn.op) m.now.code))
        marks.old marks.new) }
{
    let len = m.method().code.len();
    let mut known = None;
    for i in 0..len {
        mark_at(
            alloc, &mut known, p, uses, method, m, tags, t, grades, i, marks,
        )?;
    }
    Ok(())
}

/// How the section of a synchronized method runs it.
pub fn method_mode(m: &MethodInfo) -> Mode
    ensures { result ≡ mode_of_method (Some m.now) }
{
    if is_static(m.flags) {
        Mode::OnClass(m.class)
    } else {
        Mode::OnThis
    }
}

/// How a section of a method runs it. A block is on `this`, where it may run without its lock at
/// all.
pub fn section_mode(m: &MethodInfo, spot: Spot) -> Mode
    ensures { result ≡ mode_of_spot (Some m.now) spot }
{
    match spot {
        Spot::Method => method_mode(m),
        Spot::Block(_) => Mode::OnThis,
    }
}

/// Adds the mark of a method's own section, where it has one.
fn mark_whole(
    alloc: Global,
    p: &Program,
    uses: &Uses,
    callees: &Callees,
    method: u32,
    m: &MethodInfo,
    tags: &Rows<Tags>,
    t: &Tags,
    marks: &mut Rows<SectionMark>,
) -> Result<(), AllocError>
    requires program { IsProgram p.now }
    requires few { length p.now.methods ≤ most }
    requires there { slice_get p.now.methods method ≡ Some m.now }
    requires tagged { slice_get tags.now method ≡ Some t.now }
    requires callees { AreCallees p.now (tagged_by tags.now) uses.now callees.now.class
        callees.now.breaks.items callees.now.recurs.items }
    requires fits { FitsMethod callees.now.class m.now }
    ensures { OnOk result (Marks p.now (tagged_by tags.now) uses.now
        (map (section_in method) (whole_of m.now)) marks.old marks.new) }
{
    if is_synchronized(m.flags) {
        let grades = callees.grades(alloc, p, uses, method_mode(m), method, m, t)?;
        let mark = earliest(grades.as_slice());
        marks.push(SectionMark {
            method,
            spot: Spot::Method,
            mark,
        })?;
    }
    Ok(())
}

/// Adds the marks of all sections of a method.
fn mark_method(
    alloc: Global,
    p: &Program,
    uses: &Uses,
    callees: &Callees,
    method: u32,
    m: &MethodInfo,
    tags: &Rows<Tags>,
    t: &Tags,
    marks: &mut Rows<SectionMark>,
) -> Result<(), AllocError>
    requires program { IsProgram p.now }
    requires few { length p.now.methods ≤ most }
    requires there { slice_get p.now.methods method ≡ Some m.now }
    requires laid { IsLaidOut m.now }
    requires tagged { slice_get tags.now method ≡ Some t.now }
    requires callees { AreCallees p.now (tagged_by tags.now) uses.now callees.now.class
        callees.now.breaks.items callees.now.recurs.items }
    requires fits { FitsMethod callees.now.class m.now }
    ensures { OnOk result (Marks p.now (tagged_by tags.now) uses.now
        (map (section_in method) (spots_of m.now)) marks.old marks.new) }
{
    mark_whole(alloc, p, uses, callees, method, m, tags, t, marks)?;
    let indexed = IndexedMethod::of(alloc, m)?;
    let grades = callees.grades(alloc, p, uses, Mode::OnThis, method, m, t)?;
    mark_blocks(
        alloc,
        p,
        uses,
        method,
        &indexed,
        tags,
        t,
        grades.as_slice(),
        marks,
    )
}

/// What calls lead to, for the sections of a method: what is there, or, where the method locks
/// another class, the same for that.
fn callees_for(
    alloc: Global,
    p: &Program,
    uses: &Uses,
    tags: &Rows<Tags>,
    m: &MethodInfo,
    callees: Callees,
) -> Result<Callees, AllocError>
    requires program { IsProgram p.now }
    requires few { length p.now.methods ≤ most }
    requires graph { IsGraph (3 * length p.now.methods) (call_graph p.now tags.now).from
        (call_graph p.now tags.now).to }
    requires callees { AreCallees p.now (tagged_by tags.now) uses.now callees.class
        callees.breaks.items callees.recurs.items }
    ensures are { IfOk result (λ c.
        AreCallees p.now (tagged_by tags.now) uses.now c.class c.breaks.items c.recurs.items) }
    ensures fits { IfOk result (λ c. FitsMethod c.class m.now) }
{
    if locks_class(m) && m.class != callees.class {
        Callees::of(alloc, p, uses, tags, m.class)
    } else {
        Ok(callees)
    }
}

fn mark_all(
    alloc: Global,
    p: &Program,
    uses: &Uses,
    tags: &Rows<Tags>,
) -> Result<Rows<SectionMark>, AllocError>
    requires program { IsProgram p.now }
    requires few { length p.now.methods ≤ most }
    requires graph { IsGraph (3 * length p.now.methods) (call_graph p.now tags.now).from
        (call_graph p.now tags.now).to }
    requires tags { length p.now.methods ≤ length tags.now }
    ensures { IfOk result (AllZip (IsMarkOf p.now (tagged_by tags.now) uses.now) (sections p.now)) }
{
    let mut callees = Callees::of(alloc, p, uses, tags, 0)?;
    let mut marks = Rows::new(alloc);
    let mut budget = row_budget(p);
    for u in 0..p.methods.len() {
        let m = &p.methods.as_slice()[u];
        let t = &tags.as_slice()[u];
        spend_for_blocks(&mut budget, m)?;
        callees = callees_for(alloc, p, uses, tags, m, callees)?;
        mark_method(alloc, p, uses, &callees, u as u32, m, tags, t, &mut marks)?;
    }
    Ok(marks)
}

/// The mark of each section of a program, in order of its methods: 0 where it may run without its
/// lock, else the first rule that forbids that. `uses` has what sections may read, `tags` the lock
/// tags of each method.
pub fn mark_by_uses(
    alloc: Global,
    p: &Program,
    uses: &Uses,
    tags: &Rows<Tags>,
) -> Result<Rows<SectionMark>, AllocError>
    requires program { IsProgram p.now }
    requires tagged { AreTaggings p.now p.now.methods tags.now }
    ensures { IfOk result (AllZip (IsMarkOf p.now (tagged_by tags.now) uses.now) (sections p.now)) }
{
    mark_all(alloc, p, uses, tags)
}

/// The mark of each section of a program, in order of its methods: 0 where it may run without its
/// lock, else the first rule that forbids that. `tags` has the lock tags of each method. The error
/// is that memory was refused.
pub fn mark(alloc: Global, p: &Program, tags: &Rows<Tags>) -> Result<Rows<SectionMark>, AllocError>
    requires program { IsProgram p.now }
    requires tagged { AreTaggings p.now p.now.methods tags.now }
    ensures { IfOk result (AreMarks p.now (tagged_by tags.now)) }
{
    let frozen = frozen_classes(alloc, p, tags)?;
    let uses = uses(alloc, p, tags, &frozen)?;
    let marks = mark_by_uses(alloc, p, &uses, tags)?;
    Ok(marks)
}
