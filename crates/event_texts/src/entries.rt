//! Which section an entry runs, with its mark, and which method a part begins.

ghost use Rattle.std.specs.Prelude.{◌≡◌, ◌++◌, OnOk};
ghost use Rattle.event_texts.specs.EntryFacts.{begun_method_facts, entered_facts, entry_facts};
ghost use Rattle.event_texts.specs.EntryFacts.{mark_among, mark_told};
ghost use Rattle.machine_types.specs.Sections.{entered_at, is_same_spot};

use crate::sights::Spot as FrameSpot;
use checked_program::{Checked, SectionMark, Spot};
use jvm_types::{Program, Rows};
use machine_types::Phase;
use place_names::{add_mark, add_method, add_section_spot};
use std::alloc::{AllocError, Global};
use tellings::{Fact, Key};

/// The section that a frame enters at a pc.
fn entered_at(pc: u32) -> Spot
    ensures { result ≡ entered_at pc }
{
    if pc == 0 {
        Spot::Method
    } else {
        Spot::Block(pc - 1)
    }
}

fn is_same_spot(spot: Spot, other: Spot) -> bool
    ensures { result ≡ is_same_spot spot other }
{
    match (spot, other) {
        (Spot::Method, Spot::Method) => true,
        (Spot::Block(pc), Spot::Block(at)) => pc == at,
        _ => false,
    }
}

/// The mark of the section of a method that begins at a spot.
fn mark_among(marks: &[SectionMark], method: u32, spot: Spot) -> Option<u8>
    ensures { result ≡ mark_among marks.now method spot }
{
    for s in marks {
        if s.method == method && is_same_spot(s.spot, spot) {
            return Some(s.mark);
        }
    }
    None
}

fn add_mark_if(facts: &mut Rows<Fact>, alloc: Global, mark: Option<u8>) -> Result<(), AllocError>
    ensures { OnOk result (facts.new ≡ facts.old ++ mark_told mark) }
{
    match mark {
        Some(mark) => add_mark(facts, alloc, Key::Mark, mark),
        None => Ok(()),
    }
}

fn add_entered(
    facts: &mut Rows<Fact>,
    alloc: Global,
    c: &Checked,
    method: u32,
    spot: Spot,
) -> Result<(), AllocError>
    ensures { OnOk result
        (facts.new ≡ facts.old ++ entered_facts c.now.program c.now.marks method spot) }
{
    facts.push(Fact::Opens(Key::Section))?;
    add_method(facts, alloc, c.program(), method)?;
    add_section_spot(facts, alloc, spot)?;
    add_mark_if(facts, alloc, mark_among(c.marks().as_slice(), method, spot))?;
    facts.push(Fact::Closes)
}

/// Adds the section that is entered, as marks are told.
pub fn add_entry(
    facts: &mut Rows<Fact>,
    alloc: Global,
    c: &Checked,
    phase: Phase,
    at: Option<FrameSpot>,
) -> Result<(), AllocError>
    ensures { OnOk result
        (facts.new ≡ facts.old ++ entry_facts c.now.program c.now.marks phase at) }
{
    match (phase, at) {
        (Phase::Enter(_, _), Some(at)) => {
            add_entered(facts, alloc, c, at.method, entered_at(at.pc))
        }
        _ => Ok(()),
    }
}

/// Adds the method that a part begins, in which the thread stands behind the event.
pub fn add_begin(
    facts: &mut Rows<Fact>,
    alloc: Global,
    p: &Program,
    phase: Phase,
    at: Option<FrameSpot>,
) -> Result<(), AllocError>
    ensures { OnOk result (facts.new ≡ facts.old ++ begun_method_facts p.now phase at) }
{
    match (phase, at) {
        (Phase::Start, Some(at)) => {
            facts.push(Fact::Opens(Key::BeginsMethod))?;
            add_method(facts, alloc, p, at.method)?;
            facts.push(Fact::Closes)
        }
        _ => Ok(()),
    }
}
