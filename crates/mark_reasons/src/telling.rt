//! The marks of a program with their reasons, written as they are found.

ghost use Rattle.std.specs.Prelude.{◌≡◌, ◌*◌, ◌≤◌, length, IfOk};
ghost use Rattle.jvm_types.specs.ProgramInvariant.{IsProgram};
ghost use Rattle.jvm_types.specs.declared.limits.TheConstants.{MOST_INSTRUCTIONS as most};
ghost use Rattle.checked_program.specs.MarkedProgram.{AreTaggings};
ghost use Rattle.checked_program.specs.Marks.{HasMark};
ghost use Rattle.checked_program.specs.OwnedArrays.{AreUses};
ghost use Rattle.checked_program.specs.TaggedCode.{tagged_by};
ghost use Rattle.graph_closure.specs.Walks.{AreRecurring};
ghost use Rattle.guard_analysis.specs.CallGraph.{call_graph};
ghost use Rattle.mark_reasons.specs.Causes.{IsCauseMemo};
ghost use Rattle.mark_reasons.specs.MarksTold.{section_text as the_section_text};
ghost use Rattle.mark_reasons.specs.MarksTold.{AreMarksWritten, AreSectionsWritten};
ghost use Rattle.mark_reasons.specs.MarksTold.{IsSectionReady, IsSectionWritten};
ghost use Rattle.mark_reasons.specs.Reasons.{marked_section, AreMarked};

use crate::cause_memo::CauseMemo;
use crate::explain::{reason_of, recurring_nodes};
use crate::facts::section_told;
use crate::reason::Reason;
use crate::shared::{LastWay, last_told};
use checked_program::{Checked, SectionMark, Tags, Uses};
use frozen_classes::frozen_classes;
use guard_analysis::readable::uses;
use host_io::sink::{Sink, SinkFailed};
use host_io::writing::write_whole;
use json_lines::Form;
use jvm_types::{Program, Rows};
use source_lines::Sources;
use std::alloc::{AllocError, Global};
use tellings::write_told;

/// Why the marks were not written whole.
#[derive(Clone, Copy, Debug, PartialEq, Eq)]
pub enum MarksError {
    /// There was no memory.
    Memory,
    /// The sink failed.
    Failed,
}

/// What is to be told of a section, and the section that calls stand below once that is told.
#[derive(Drop)]
pub struct Ready {
    pub text: Vec<u8>,
    pub last: Option<LastWay>,
}

// What is told of a section, in a form.
fn section_text(
    alloc: Global,
    form: Form,
    p: &Program,
    sources: &Sources,
    last: &Option<LastWay>,
    mark: SectionMark,
    reason: &Option<Reason>,
) -> Result<Vec<u8>, AllocError>
    ensures { IfOk result (λ text.
        text.items ≡ the_section_text form p.now sources.now last.now mark reason.now) }
{
    let facts = section_told(alloc, p, sources, last, mark, reason)?;
    let mut text = Vec::new(alloc);
    write_told(&mut text, alloc, form, "section", facts.as_slice())?;
    Ok(text)
}

fn make_ready(
    alloc: Global,
    form: Form,
    p: &Program,
    sources: &Sources,
    uses: &Uses,
    tags: &Rows<Tags>,
    memo: &mut CauseMemo,
    recurs: &[bool],
    last: Option<LastWay>,
    mark: SectionMark,
) -> Result<Ready, AllocError>
    requires program { IsProgram p.now }
    requires few { length p.now.methods ≤ most }
    requires taggings { AreTaggings p.now p.now.methods tags.now }
    requires uses { AreUses p.now (tagged_by tags.now) uses.now }
    requires recurs { AreRecurring (call_graph p.now tags.now).from (call_graph p.now tags.now).to
        (3 * length p.now.methods) recurs.now }
    requires marked { HasMark p.now (tagged_by tags.now) uses.now (marked_section mark) mark.mark }
    requires memo { IsCauseMemo p.now (tagged_by tags.now) memo.old }
    ensures memo { IsCauseMemo p.now (tagged_by tags.now) memo.new }
    ensures ready { IfOk result
        (IsSectionReady form p.now sources.now (tagged_by tags.now) uses.now last mark) }
{
    let reason = reason_of(alloc, p, uses, tags, memo, recurs, mark)?;
    let text = section_text(alloc, form, p, sources, &last, mark, &reason)?;
    let last = last_told(alloc, last, mark, &reason)?;
    Ok(Ready { text, last })
}

// Writes what is told of a section.
fn tell_section<K: Sink>(
    alloc: Global,
    form: Form,
    p: &Program,
    sources: &Sources,
    uses: &Uses,
    tags: &Rows<Tags>,
    memo: &mut CauseMemo,
    recurs: &[bool],
    last: Option<LastWay>,
    mark: SectionMark,
    sink: &mut K,
) -> Result<Option<LastWay>, MarksError>
    requires program { IsProgram p.now }
    requires few { length p.now.methods ≤ most }
    requires taggings { AreTaggings p.now p.now.methods tags.now }
    requires uses { AreUses p.now (tagged_by tags.now) uses.now }
    requires recurs { AreRecurring (call_graph p.now tags.now).from (call_graph p.now tags.now).to
        (3 * length p.now.methods) recurs.now }
    requires marked { HasMark p.now (tagged_by tags.now) uses.now (marked_section mark) mark.mark }
    requires memo { IsCauseMemo p.now (tagged_by tags.now) memo.old }
    ensures memo { IsCauseMemo p.now (tagged_by tags.now) memo.new }
    ensures written { IsSectionWritten form p.now sources.now (tagged_by tags.now) uses.now last
        mark (K.text sink.old) (K.text sink.new) (K.faults sink.old) (K.faults sink.new) result }
{
    match make_ready(
        alloc, form, p, sources, uses, tags, memo, recurs, last, mark,
    ) {
        Ok(ready) => match write_whole(sink, ready.text.as_slice()) {
            Ok(()) => Ok(ready.last),
            Err(SinkFailed) => Err(MarksError::Failed),
        },
        Err(AllocError) => Err(MarksError::Memory),
    }
}

// Writes what is told of all sections.
fn tell_sections<K: Sink>(
    alloc: Global,
    form: Form,
    p: &Program,
    sources: &Sources,
    uses: &Uses,
    tags: &Rows<Tags>,
    memo: &mut CauseMemo,
    recurs: &[bool],
    marks: &[SectionMark],
    sink: &mut K,
) -> Result<(), MarksError>
    requires program { IsProgram p.now }
    requires few { length p.now.methods ≤ most }
    requires taggings { AreTaggings p.now p.now.methods tags.now }
    requires uses { AreUses p.now (tagged_by tags.now) uses.now }
    requires recurs { AreRecurring (call_graph p.now tags.now).from (call_graph p.now tags.now).to
        (3 * length p.now.methods) recurs.now }
    requires marked { AreMarked p.now (tagged_by tags.now) uses.now marks.now }
    requires memo { IsCauseMemo p.now (tagged_by tags.now) memo.old }
    ensures memo { IsCauseMemo p.now (tagged_by tags.now) memo.new }
    ensures written { AreSectionsWritten form p.now sources.now (tagged_by tags.now) uses.now
        marks.now (K.text sink.old) (K.text sink.new) (K.faults sink.old) (K.faults sink.new)
        result }
{
    let mut last = None;
    for mark in marks {
        last = tell_section(
            alloc, form, p, sources, uses, tags, memo, recurs, last, *mark, sink,
        )?;
    }
    Ok(())
}

/// What is known of a program before its marks are explained: how its places may be used, of each
/// node of the graph of calls, whether it leads to a method that calls itself, and of no field yet
/// what keeps sections from it.
#[derive(Drop)]
pub struct Known {
    pub uses: Uses,
    pub recurs: Vec<bool>,
    pub memo: CauseMemo,
}

fn find_known(alloc: Global, p: &Program, tags: &Rows<Tags>) -> Result<Known, AllocError>
    requires program { IsProgram p.now }
    requires few { length p.now.methods ≤ most }
    requires tagged { AreTaggings p.now p.now.methods tags.now }
    ensures uses { IfOk result (λ k. AreUses p.now (tagged_by tags.now) k.uses) }
    ensures recurs { IfOk result (λ k.
        AreRecurring (call_graph p.now tags.now).from (call_graph p.now tags.now).to
        (3 * length p.now.methods) k.recurs.items) }
    ensures memo { IfOk result (λ k. IsCauseMemo p.now (tagged_by tags.now) k.memo) }
{
    let frozen = frozen_classes(alloc, p, tags)?;
    let uses = uses(alloc, p, tags, &frozen)?;
    let recurs = recurring_nodes(alloc, p, tags)?;
    let memo = CauseMemo::new(alloc, p.fields.len())?;
    Ok(Known { uses, recurs, memo })
}

/// Writes the marks of a program with their reasons, section by section as they are found: for each
/// its line as `run_texts::mark_text` has it, with where it begins in the source, and below that
/// where the mark isn't M0 why, as `section_told` has it; or as JSON one object on a line, made of
/// the same.
///
/// It answers `Failed` where the sink fails, and `Memory` where there is no memory. The memory that
/// it takes does not grow with the text.
pub fn explain_marks<K: Sink>(
    alloc: Global,
    form: Form,
    c: &Checked,
    sources: &Sources,
    sink: &mut K,
) -> Result<(), MarksError>
    ensures { AreMarksWritten form c.now sources.now (K.text sink.old) (K.text sink.new)
        (K.faults sink.old) (K.faults sink.new) result }
{
    let p = c.program();
    let tags = c.tags();
    match find_known(alloc, p, tags) {
        Ok(mut known) => tell_sections(
            alloc,
            form,
            p,
            sources,
            &known.uses,
            tags,
            &mut known.memo,
            known.recurs.as_slice(),
            c.marks().as_slice(),
            sink,
        ),
        Err(AllocError) => Err(MarksError::Memory),
    }
}
