//! What no run is to do and was found, as text.

ghost use Rattle.std.specs.Prelude.{◌≡◌, ◌||◌, ◌++◌, IfOk, OnOk, drop, slice_get};
ghost use Rattle.std.specs.List.{flat_map, list_any};
ghost use Rattle.std.specs.Option.{option_copied};
ghost use Rattle.outcome_texts.specs.AllFacts.{finding_name as the_name, finding_text};
ghost use Rattle.outcome_texts.specs.AllFacts.{forbidden_text};
ghost use Rattle.outcome_texts.specs.AllFacts.{forbidden_word as the_word};
ghost use Rattle.outcome_texts.specs.AllFacts.{finding_facts, printing_steps, uncaught_facts};
ghost use Rattle.outcome_texts.specs.Findings.{finding as the_finding, is_found as is_it_found};

use crate::ends::add_ends;
use crate::findings::{Finding, Forbidden, find_forbidden, is_found};
use crate::steps::{add_steps, add_words};
use checked_program::Checked;
use json_lines::Form;
use jvm_types::{Bytes, Rows};
use outcomes::{Outcomes, Printing, Reached};
use std::alloc::{AllocError, Global};
use tellings::{Fact, Key, add_count, write_told};

/// It, as the words of the command have it.
fn forbidden_word(alloc: Global, what: Forbidden) -> Result<Bytes, AllocError>
    ensures { IfOk result (λ word. word ≡ the_word what) }
{
    let mut word = String::new(alloc);
    match what {
        Forbidden::Print(value) => write!(word, "print:{value}")?,
        Forbidden::Stuck => word.push_str("stuck")?,
        Forbidden::Uncaught => word.push_str("uncaught")?,
    }
    Bytes::from_slice(alloc, word.as_bytes())
}

fn add_steps_of(
    facts: &mut Rows<Fact>,
    alloc: Global,
    printing: Option<&Printing>,
) -> Result<(), AllocError>
    ensures { OnOk result (facts.new ≡ facts.old ++ printing_steps (option_copied printing.entry)) }
{
    match printing {
        Some(x) => add_steps(facts, alloc, &x.at.steps),
        None => Ok(()),
    }
}

/// Adds how parts ended where an exception that nothing caught ended one, and steps that lead
/// there.
fn add_uncaught(
    facts: &mut Rows<Fact>,
    alloc: Global,
    p: &Checked,
    uncaught: &Option<Reached>,
) -> Result<(), AllocError>
    ensures { OnOk result
        (facts.new ≡ facts.old ++ uncaught_facts p.now.program uncaught.now) }
{
    match uncaught {
        Some(at) => {
            add_ends(facts, alloc, p, &at.plain)?;
            add_steps(facts, alloc, &at.steps)
        }
        None => Ok(()),
    }
}

fn add_found(
    facts: &mut Rows<Fact>,
    alloc: Global,
    p: &Checked,
    o: &Outcomes,
    found: Finding,
) -> Result<(), AllocError>
    ensures { OnOk result (facts.new ≡ facts.old ++ finding_facts p.now.program o.now found) }
{
    match found {
        Finding::InOutcome(number) => add_count(facts, Key::InOutcome, number),
        Finding::InNone(i) => {
            add_words(facts, alloc, b", in no outcome")?;
            add_steps_of(facts, alloc, o.printed.get(i as usize))
        }
        Finding::UncaughtInNone => {
            add_words(facts, alloc, b", in no outcome")?;
            add_uncaught(facts, alloc, p, &o.uncaught)
        }
        Finding::Nowhere => Ok(()),
    }
}

#[tactic(auto, unfolding(crate::specs::AllFacts::finding_name))]
fn finding_name() -> &'static str
    ensures { result.now ≡ the_name }
{
    "forbidden"
}

/// Adds where it was found, if it was.
fn write_finding(
    out: &mut Vec<u8>,
    alloc: Global,
    form: Form,
    p: &Checked,
    o: &Outcomes,
    what: Forbidden,
    found: Finding,
) -> Result<(), AllocError>
    ensures { OnOk result (out.new.items
        ≡ out.old.items ++ finding_text form p.now.program o.now what found) }
{
    if !is_found(found) {
        return Ok(());
    }
    let mut facts = Rows::new(alloc);
    facts.push(Fact::Text(Key::Forbidden, forbidden_word(alloc, what)?))?;
    add_found(&mut facts, alloc, p, o, found)?;
    write_told(out, alloc, form, finding_name(), facts.as_slice())
}

/// Adds where one of these was found, if it was, and answers whether it was.
fn write_forbidden(
    out: &mut Vec<u8>,
    alloc: Global,
    form: Form,
    p: &Checked,
    o: &Outcomes,
    what: Forbidden,
) -> Result<bool, AllocError>
    ensures text { OnOk result
        (out.new.items ≡ out.old.items ++ forbidden_text form p.now.program o.now what) }
    ensures found { IfOk result (λ b. b ≡ is_it_found (the_finding p.now.program o.now what)) }
{
    let found = find_forbidden(alloc, p, o, what)?;
    write_finding(out, alloc, form, p, o, what, found)?;
    Ok(is_found(found))
}

/// Adds what was found of these, and answers whether something was.
pub(crate) fn write_all_forbidden(
    out: &mut Vec<u8>,
    alloc: Global,
    form: Form,
    p: &Checked,
    o: &Outcomes,
    forbidden: &[Forbidden],
) -> Result<bool, AllocError>
    ensures text { OnOk result (out.new.items
        ≡ out.old.items ++ flat_map (forbidden_text form p.now.program o.now) forbidden.now) }
    ensures found { IfOk result (λ b. b
        ≡ list_any (λ f. is_it_found (the_finding p.now.program o.now f)) forbidden.now) }
{
    let mut found = false;
    for what in forbidden {
        let is_this_found = write_forbidden(out, alloc, form, p, o, *what)?;
        found = found || is_this_found;
    }
    Ok(found)
}
