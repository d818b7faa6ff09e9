//! What is told of a section and of its mark, fact by fact.

ghost use Rattle.std.specs.Prelude.{◌≡◌, ◌++◌, ◌∷◌, [], codes, slice_get, string_bytes};
ghost use Rattle.std.specs.Prelude.{Some, IfOk, OnOk};
ghost use Rattle.std.specs.Option.{option_copied};
ghost use Rattle.run_texts.specs.MarksText.{class_text};
ghost use Rattle.mark_reasons.specs.ReasonFacts.{again_facts, begun_facts, call_facts, calls_facts};
ghost use Rattle.mark_reasons.specs.ReasonFacts.{cause_facts, cause_kind as the_kind, cause_place};
ghost use Rattle.mark_reasons.specs.ReasonFacts.{fault_facts, site_insn_facts, marked_facts};
ghost use Rattle.mark_reasons.specs.ReasonFacts.{misuse_kind as the_misuse_kind};
ghost use Rattle.mark_reasons.specs.ReasonFacts.{misuse_words as the_misuse_words};
ghost use Rattle.mark_reasons.specs.ReasonFacts.{numbered as the_numbered, reason_facts};
ghost use Rattle.mark_reasons.specs.ReasonFacts.{rule_words as the_rule_words, section_facts};
ghost use Rattle.mark_reasons.specs.ReasonFacts.{shared_facts, site_facts, some_reason_facts};
ghost use Rattle.mark_reasons.specs.ReasonFacts.{way_facts};
ghost use Rattle.place_names.specs.SectionFacts.{mark_name as the_mark_name};
ghost use Rattle.mark_reasons.specs.ReasonFacts.{method_site_facts, section_pc as the_section_pc};
ghost use Rattle.tellings.specs.declared.facts.Fact.TheVariants.{Closes as closes, Item as item};
ghost use Rattle.tellings.specs.declared.facts.Fact.TheVariants.{Count as the_count, Ends as ends};
ghost use Rattle.tellings.specs.declared.facts.Fact.TheVariants.{Lists as lists, Text as the_text};
ghost use Rattle.tellings.specs.declared.facts.Fact.TheVariants.{Words as the_words};

use crate::cause::Cause;
use crate::reason::{Reason, Site};
use crate::shared::{LastWay, shared_calls};
use checked_program::{SectionMark, Spot};
use guard_analysis::array_faults::Misuse;
use jvm_types::{Bytes, Insn, MethodInfo, Program, Rows};
use place_names::{add_mark, add_method, add_pc, add_section_spot, add_source, mark_name};
use run_texts::write_class;
use source_lines::Sources;
use std::alloc::{AllocError, Global};
use tellings::{Fact, Key, add_count, add_text};

// ---- sections

fn add_words(facts: &mut Rows<Fact>, alloc: Global, words: &[u8]) -> Result<(), AllocError>
    ensures { OnOk result (facts.new ≡ facts.old ++ the_words words.now ∷ []) }
{
    facts.push(Fact::Words(Bytes::from_slice(alloc, words)?))
}

fn add_class(
    facts: &mut Rows<Fact>,
    alloc: Global,
    p: &Program,
    class: u16,
) -> Result<(), AllocError>
    ensures { OnOk result
        (facts.new ≡ facts.old ++ the_text Key.SectionClass (class_text p.now.names class) ∷ []) }
{
    let mut name = Vec::new(alloc);
    write_class(&mut name, p, class)?;
    add_text(facts, alloc, Key::SectionClass, name.as_slice())
}

fn add_name(facts: &mut Rows<Fact>, alloc: Global, m: &MethodInfo) -> Result<(), AllocError>
    ensures { OnOk result
        (facts.new ≡ facts.old ++ the_text Key.Method (m.now.name ++ m.now.descriptor) ∷ []) }
{
    let mut words = Vec::new(alloc);
    words.extend_from_slice(m.name.as_slice())?;
    words.extend_from_slice(m.descriptor.as_slice())?;
    add_text(facts, alloc, Key::Method, words.as_slice())
}

fn add_begin(
    facts: &mut Rows<Fact>,
    alloc: Global,
    p: &Program,
    method: u32,
) -> Result<(), AllocError>
    ensures { OnOk result
        (facts.new ≡ facts.old ++ begun_facts p.now.names (slice_get p.now.methods method)) }
{
    match p.methods.get(method as usize) {
        Some(m) => {
            add_class(facts, alloc, p, m.class)?;
            add_name(facts, alloc, m)
        }
        None => Ok(()),
    }
}

fn add_section(
    facts: &mut Rows<Fact>,
    alloc: Global,
    p: &Program,
    method: u32,
    spot: Spot,
) -> Result<(), AllocError>
    ensures { OnOk result (facts.new ≡ facts.old ++ section_facts p.now method spot) }
{
    add_begin(facts, alloc, p, method)?;
    add_section_spot(facts, alloc, spot)
}

// The pc at which it begins.
fn section_pc(spot: Spot) -> u32
    ensures { result ≡ the_section_pc spot }
{
    match spot {
        Spot::Method => 0,
        Spot::Block(pc) => pc,
    }
}

// ---- places

/// The instruction of a number in the method of a number.
fn numbered(p: &Program, method: u32, at: usize) -> Option<&Insn>
    ensures { option_copied result ≡ the_numbered (slice_get p.now.methods method) at }
{
    match p.methods.get(method as usize) {
        Some(m) => m.code.get(at),
        None => None,
    }
}

fn add_insn(
    facts: &mut Rows<Fact>,
    alloc: Global,
    sources: &Sources,
    method: u32,
    insn: Option<&Insn>,
) -> Result<(), AllocError>
    ensures { OnOk result (facts.new
        ≡ facts.old ++ site_insn_facts sources.now method (option_copied insn.entry)) }
{
    match insn {
        Some(there) => {
            add_pc(facts, alloc, there.pc, Some(there))?;
            add_source(facts, alloc, sources, method, there.pc)
        }
        None => Ok(()),
    }
}

fn add_site(
    facts: &mut Rows<Fact>,
    alloc: Global,
    p: &Program,
    sources: &Sources,
    method: u32,
    at: usize,
) -> Result<(), AllocError>
    ensures { OnOk result (facts.new ≡ facts.old ++ site_facts p.now sources.now method at) }
{
    add_method(facts, alloc, p, method)?;
    add_insn(facts, alloc, sources, method, numbered(p, method, at))
}

fn add_method_site(
    facts: &mut Rows<Fact>,
    alloc: Global,
    p: &Program,
    sources: &Sources,
    method: u32,
) -> Result<(), AllocError>
    ensures { OnOk result
        (facts.new ≡ facts.old ++ method_site_facts p.now sources.now method) }
{
    add_method(facts, alloc, p, method)?;
    add_source(facts, alloc, sources, method, 0)
}

// ---- the way

fn begin_item(facts: &mut Rows<Fact>, alloc: Global, words: &[u8]) -> Result<(), AllocError>
    ensures { OnOk result (facts.new ≡ facts.old ++ the_words words.now ∷ item ∷ []) }
{
    add_words(facts, alloc, words)?;
    facts.push(Fact::Item)
}

fn close(facts: &mut Rows<Fact>, alloc: Global, words: &[u8]) -> Result<(), AllocError>
    ensures { OnOk result (facts.new ≡ facts.old ++ closes ∷ the_words words.now ∷ []) }
{
    facts.push(Fact::Closes)?;
    add_words(facts, alloc, words)
}

fn add_call(
    facts: &mut Rows<Fact>,
    alloc: Global,
    p: &Program,
    sources: &Sources,
    site: Site,
) -> Result<(), AllocError>
    ensures { OnOk result (facts.new ≡ facts.old ++ call_facts p.now sources.now site) }
{
    begin_item(facts, alloc, b"\n ")?;
    add_site(facts, alloc, p, sources, site.method, site.at)?;
    close(facts, alloc, b" calls")
}

fn add_calls(
    facts: &mut Rows<Fact>,
    alloc: Global,
    p: &Program,
    sources: &Sources,
    way: &[Site],
) -> Result<(), AllocError>
    ensures { OnOk result (facts.new ≡ facts.old ++ calls_facts p.now sources.now way.now) }
{
    for site in way {
        add_call(facts, alloc, p, sources, *site)?;
    }
    Ok(())
}

fn begin_shared(facts: &mut Rows<Fact>, alloc: Global, calls: usize) -> Result<(), AllocError>
    ensures { OnOk result (facts.new
        ≡ facts.old ++ the_words (codes "\n  ") ∷ item ∷ the_count Key.Calls calls ∷ []) }
{
    begin_item(facts, alloc, b"\n  ")?;
    add_count(facts, Key::Calls, calls as u64)
}

fn add_shared(
    facts: &mut Rows<Fact>,
    alloc: Global,
    p: &Program,
    last: &Option<LastWay>,
    calls: usize,
) -> Result<(), AllocError>
    ensures { OnOk result (facts.new ≡ facts.old ++ shared_facts p.now last.now calls) }
{
    match last {
        Some(last) => {
            begin_shared(facts, alloc, calls)?;
            add_section(facts, alloc, p, last.method, last.spot)?;
            facts.push(Fact::Closes)
        }
        None => Ok(()),
    }
}

fn add_way(
    facts: &mut Rows<Fact>,
    alloc: Global,
    p: &Program,
    sources: &Sources,
    last: &Option<LastWay>,
    way: &[Site],
) -> Result<(), AllocError>
    ensures { OnOk result (facts.new ≡ facts.old ++ way_facts p.now sources.now last.now way.now) }
{
    let shared = shared_calls(last, way);
    add_calls(facts, alloc, p, sources, &way[..way.len() - shared])?;
    if shared > 0 {
        add_shared(facts, alloc, p, last, shared)
    } else {
        Ok(())
    }
}

// ---- reasons

/// The rules M1 to M5 in words.
fn rule_words(rule: u8) -> &'static str
    ensures { result.now ≡ the_rule_words rule }
{
    match rule {
        1 => "it writes a field, a static field or an element",
        2 => "it makes an object or an array",
        3 => "it enters a monitor that is not known to be the section's",
        4 => "it prints, waits or notifies",
        _ => "it reads what the section's lock is not known to guard",
    }
}

fn fault_words(alloc: Global, rule: u8) -> Result<String, AllocError>
    ensures { IfOk result (λ words. string_bytes words
        ≡ codes " " ++ the_mark_name rule ++ codes ": " ++ the_rule_words rule) }
{
    let words = rule_words(rule);
    let mut text = String::new(alloc);
    write!(text, " M{rule}: {words}")?;
    Ok(text)
}

fn add_fault(
    facts: &mut Rows<Fact>,
    alloc: Global,
    p: &Program,
    sources: &Sources,
    site: Site,
    rule: u8,
) -> Result<(), AllocError>
    ensures { OnOk result (facts.new ≡ facts.old ++ fault_facts p.now sources.now site rule) }
{
    let words = fault_words(alloc, rule)?;
    begin_item(facts, alloc, b"\n ")?;
    add_site(facts, alloc, p, sources, site.method, site.at)?;
    close(facts, alloc, words.as_bytes())
}

fn misuse_kind(misuse: Misuse) -> &'static [u8]
    ensures { result.now ≡ the_misuse_kind misuse }
{
    match misuse {
        Misuse::Read => b"array_read",
        Misuse::Written => b"array_written",
        Misuse::NotNew => b"array_not_new",
        Misuse::Stored => b"element_written",
        Misuse::Taken => b"array_taken",
        Misuse::Meets => b"array_meets",
    }
}

/// What an instruction does that counts against the field of an array.
fn misuse_words(misuse: Misuse) -> &'static [u8]
    ensures { result.now ≡ the_misuse_words misuse }
{
    match misuse {
        Misuse::Read => b" reads the array's field of an object that is not known to be this",
        Misuse::Written => {
            b" writes the array's field, not known to be under the lock that guards it"
        }
        Misuse::NotNew => b" stores in the array's field what is not known to be a new array",
        Misuse::Stored => b" writes an element, not known to be under the lock that guards it",
        Misuse::Taken => b" takes an array of the field for more than its elements and its length",
        Misuse::Meets => {
            b" leads to where one path brings an array of the field and another does not"
        }
    }
}

fn cause_kind(cause: Cause) -> &'static [u8]
    ensures { result.now ≡ the_kind cause }
{
    match cause {
        Cause::Element => b"element",
        Cause::Misused { misuse, .. } => misuse_kind(misuse),
        Cause::Static => b"static",
        Cause::Shared => b"shared",
        Cause::Other => b"other",
        Cause::Constructor(_) => b"constructor",
        Cause::Write { .. } => b"write",
    }
}

fn add_constructor(
    facts: &mut Rows<Fact>,
    alloc: Global,
    p: &Program,
    sources: &Sources,
    init: u32,
) -> Result<(), AllocError>
    ensures { OnOk result
        (facts.new ≡ facts.old ++ cause_place p.now sources.now (Cause.Constructor init)) }
{
    facts.push(Fact::Opens(Key::Constructor))?;
    add_method_site(facts, alloc, p, sources, init)?;
    close(facts, alloc, b" is not known to keep its object to itself")
}

fn add_write(
    facts: &mut Rows<Fact>,
    alloc: Global,
    p: &Program,
    sources: &Sources,
    method: u32,
    at: usize,
) -> Result<(), AllocError>
    ensures { OnOk result
        (facts.new ≡ facts.old ++ cause_place p.now sources.now (Cause.Write method at)) }
{
    facts.push(Fact::Opens(Key::Write))?;
    add_site(facts, alloc, p, sources, method, at)?;
    close(
        facts,
        alloc,
        b" writes the field, not known to be under the lock that guards it",
    )
}

fn add_misuse(
    facts: &mut Rows<Fact>,
    alloc: Global,
    p: &Program,
    sources: &Sources,
    misuse: Misuse,
    method: u32,
    at: usize,
) -> Result<(), AllocError>
    ensures { OnOk result
        (facts.new ≡ facts.old ++ cause_place p.now sources.now (Cause.Misused misuse method at)) }
{
    facts.push(Fact::Opens(Key::Array))?;
    add_site(facts, alloc, p, sources, method, at)?;
    close(facts, alloc, misuse_words(misuse))
}

fn add_cause_place(
    facts: &mut Rows<Fact>,
    alloc: Global,
    p: &Program,
    sources: &Sources,
    cause: Cause,
) -> Result<(), AllocError>
    ensures { OnOk result (facts.new ≡ facts.old ++ cause_place p.now sources.now cause) }
{
    match cause {
        Cause::Element => add_words(
            facts,
            alloc,
            b"\n    it is an element of an array that is not known to be the section's own",
        ),
        Cause::Misused { misuse, method, at } => {
            add_misuse(facts, alloc, p, sources, misuse, method, at)
        }
        Cause::Static => add_words(
            facts,
            alloc,
            b"\n    it is a static field, and the section is not on its class",
        ),
        Cause::Shared => add_words(facts, alloc, b"\n    the field is not private"),
        Cause::Other => add_words(
            facts,
            alloc,
            b"\n    it is the field of an object that is not known to be the section's",
        ),
        Cause::Constructor(init) => add_constructor(facts, alloc, p, sources, init),
        Cause::Write { method, at } => add_write(facts, alloc, p, sources, method, at),
    }
}

fn add_cause(
    facts: &mut Rows<Fact>,
    alloc: Global,
    p: &Program,
    sources: &Sources,
    cause: Option<Cause>,
) -> Result<(), AllocError>
    ensures { OnOk result (facts.new ≡ facts.old ++ cause_facts p.now sources.now cause) }
{
    match cause {
        Some(there) => {
            add_text(facts, alloc, Key::Cause, cause_kind(there))?;
            add_cause_place(facts, alloc, p, sources, there)
        }
        None => Ok(()),
    }
}

fn add_again(
    facts: &mut Rows<Fact>,
    alloc: Global,
    p: &Program,
    sources: &Sources,
    site: Option<&Site>,
) -> Result<(), AllocError>
    ensures { OnOk result
        (facts.new ≡ facts.old ++ again_facts p.now sources.now (option_copied site.entry)) }
{
    match site {
        Some(x) => {
            begin_item(facts, alloc, b"\n ")?;
            add_method_site(facts, alloc, p, sources, x.method)?;
            close(facts, alloc, b" again")
        }
        None => Ok(()),
    }
}

fn add_broken(facts: &mut Rows<Fact>, alloc: Global, rule: u8) -> Result<(), AllocError>
    ensures { OnOk result (facts.new ≡ facts.old ++ the_text Key.Reason (codes "breaks")
        ∷ the_text Key.Rule (the_mark_name rule) ∷ lists Key.Way ∷ []) }
{
    add_text(facts, alloc, Key::Reason, b"breaks")?;
    add_mark(facts, alloc, Key::Rule, rule)?;
    facts.push(Fact::Lists(Key::Way))
}

fn add_recurring(facts: &mut Rows<Fact>, alloc: Global) -> Result<(), AllocError>
    ensures { OnOk result (facts.new
        ≡ facts.old ++ the_text Key.Reason (codes "recurs") ∷ lists Key.Way ∷ []) }
{
    add_text(facts, alloc, Key::Reason, b"recurs")?;
    facts.push(Fact::Lists(Key::Way))
}

fn add_said(
    facts: &mut Rows<Fact>,
    alloc: Global,
    reason: &[u8],
    words: &[u8],
) -> Result<(), AllocError>
    ensures { OnOk result (facts.new
        ≡ facts.old ++ the_text Key.Reason reason.now ∷ the_words words.now ∷ []) }
{
    add_text(facts, alloc, Key::Reason, reason)?;
    add_words(facts, alloc, words)
}

fn end_broken(
    facts: &mut Rows<Fact>,
    alloc: Global,
    p: &Program,
    sources: &Sources,
    site: Site,
    rule: u8,
    cause: Option<Cause>,
) -> Result<(), AllocError>
    ensures { OnOk result (facts.new
        ≡ facts.old ++ fault_facts p.now sources.now site rule
        ++ ends ∷ cause_facts p.now sources.now cause) }
{
    add_fault(facts, alloc, p, sources, site, rule)?;
    facts.push(Fact::Ends)?;
    add_cause(facts, alloc, p, sources, cause)
}

fn add_reason(
    facts: &mut Rows<Fact>,
    alloc: Global,
    p: &Program,
    sources: &Sources,
    last: &Option<LastWay>,
    reason: &Reason,
) -> Result<(), AllocError>
    ensures { OnOk result
        (facts.new ≡ facts.old ++ reason_facts p.now sources.now last.now reason.now) }
{
    match reason {
        Reason::Elsewhere => add_said(
            facts,
            alloc,
            b"elsewhere",
            b"\n  its monitor is not known to be this",
        ),
        Reason::Unreached => add_said(facts, alloc, b"unreached", b"\n  no path reaches it"),
        Reason::Breaks {
            way,
            site,
            rule,
            cause,
        } => {
            add_broken(facts, alloc, *rule)?;
            add_way(facts, alloc, p, sources, last, way.as_slice())?;
            end_broken(facts, alloc, p, sources, *site, *rule, *cause)
        }
        Reason::Recurs { way, again } => {
            add_recurring(facts, alloc)?;
            add_way(facts, alloc, p, sources, last, way.as_slice())?;
            add_again(facts, alloc, p, sources, way.get(*again))?;
            facts.push(Fact::Ends)
        }
    }
}

fn add_some(
    facts: &mut Rows<Fact>,
    alloc: Global,
    p: &Program,
    sources: &Sources,
    last: &Option<LastWay>,
    reason: &Option<Reason>,
) -> Result<(), AllocError>
    ensures { OnOk result
        (facts.new ≡ facts.old ++ some_reason_facts p.now sources.now last.now reason.now) }
{
    match reason {
        Some(there) => add_reason(facts, alloc, p, sources, last, there),
        None => Ok(()),
    }
}

/// What is told of a section: its class and method, where it begins, its mark, the line of the
/// source at its begin, and where the mark isn't M0 why, as lines that are each a bit further
/// right: the calls that lead to what breaks its rule, and then the instruction with the rule, and
/// for M5 what keeps the place from being read; or the method that is called again (M7), or that
/// the monitor is not known to be `this`, or that no path reaches the block (M8). Calls at the end
/// of the way that stand below the section that was told last are told by their number and that
/// section.
pub fn section_told(
    alloc: Global,
    p: &Program,
    sources: &Sources,
    last: &Option<LastWay>,
    mark: SectionMark,
    reason: &Option<Reason>,
) -> Result<Rows<Fact>, AllocError>
    ensures { IfOk result (λ facts.
        facts ≡ marked_facts p.now sources.now last.now mark reason.now) }
{
    let mut facts = Rows::new(alloc);
    add_section(&mut facts, alloc, p, mark.method, mark.spot)?;
    add_mark(&mut facts, alloc, Key::Mark, mark.mark)?;
    add_source(
        &mut facts,
        alloc,
        sources,
        mark.method,
        section_pc(mark.spot),
    )?;
    add_some(&mut facts, alloc, p, sources, last, reason)?;
    Ok(facts)
}
