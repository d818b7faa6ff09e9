//! Outcomes as text.

ghost use Rattle.std.specs.Prelude.{◌≡◌, ◌+◌, ◌<◌, ◌^◌, ◌++◌, IfOk, OnOk, length};
ghost use Rattle.outcome_texts.specs.OutcomeFacts.{outcome_kind as the_kind, order_facts};
ghost use Rattle.outcome_texts.specs.OutcomeFacts.{outcome_facts as the_outcome_facts};
ghost use Rattle.outcome_texts.specs.OutcomeFacts.{outcome_text as the_outcome_text};
ghost use Rattle.outcome_texts.specs.OutcomeFacts.{outcome_texts, steps_if_none};

use crate::ends::add_ends;
use crate::orders::order_text;
use crate::prints::add_prints;
use crate::steps::{add_steps, add_words};
use crate::stops::{add_all_stopped, is_stuck};
use checked_program::Checked;
use history_rule::Plain;
use json_lines::Form;
use jvm_types::Rows;
use machine_types::PlainStep;
use outcomes::{Listed, Ordered};
use source_lines::Sources;
use std::alloc::{AllocError, Global};
use tellings::{Fact, Key, add_count, write_told};

fn add_order(
    facts: &mut Rows<Fact>,
    alloc: Global,
    ordered: &Option<Ordered>,
) -> Result<(), AllocError>
    ensures { OnOk result (facts.new ≡ facts.old ++ order_facts ordered.now) }
{
    match ordered {
        Some(o) => facts.push(Fact::Text(Key::Order, order_text(alloc, o.order.as_slice())?)),
        None => add_words(facts, alloc, b", no order of this machine found"),
    }
}

fn add_steps_if_none(
    facts: &mut Rows<Fact>,
    alloc: Global,
    ordered: &Option<Ordered>,
    steps: &Option<Rows<PlainStep>>,
) -> Result<(), AllocError>
    ensures { OnOk result (facts.new ≡ facts.old ++ steps_if_none ordered.now steps.now) }
{
    match ordered {
        Some(_) => Ok(()),
        None => add_steps(facts, alloc, steps),
    }
}

#[tactic(auto, unfolding(crate::specs::OutcomeFacts::outcome_kind))]
pub(crate) fn outcome_kind(q: &Plain) -> &'static str
    ensures { result.now ≡ the_kind q.now.state }
{
    if is_stuck(q) { "stuck" } else { "outcome" }
}

/// What is told of an outcome, by its number.
fn outcome_facts(
    alloc: Global,
    p: &Checked,
    sources: &Sources,
    number: u64,
    x: &Listed,
) -> Result<Rows<Fact>, AllocError>
    ensures { IfOk result
        (λ facts. facts ≡ the_outcome_facts p.now.program sources.now number x.now) }
{
    let q = &x.at.plain;
    let mut facts = Rows::new(alloc);
    add_words(&mut facts, alloc, outcome_kind(q).as_bytes())?;
    add_words(&mut facts, alloc, b" ")?;
    add_count(&mut facts, Key::Number, number)?;
    add_prints(&mut facts, alloc, q.prints())?;
    add_ends(&mut facts, alloc, p, q)?;
    add_order(&mut facts, alloc, &x.ordered)?;
    add_all_stopped(&mut facts, alloc, p, sources, q)?;
    add_steps_if_none(&mut facts, alloc, &x.ordered, &x.at.steps)?;
    Ok(facts)
}

fn write_outcome(
    out: &mut Vec<u8>,
    alloc: Global,
    form: Form,
    p: &Checked,
    sources: &Sources,
    number: u64,
    x: &Listed,
) -> Result<(), AllocError>
    ensures { OnOk result (out.new.items ≡ out.old.items
        ++ the_outcome_text form p.now.program sources.now number x.now) }
{
    let facts = outcome_facts(alloc, p, sources, number, x)?;
    write_told(
        out,
        alloc,
        form,
        outcome_kind(&x.at.plain),
        facts.as_slice(),
    )
}

/// Adds the outcomes of a list, the first of which has the number 1.
pub(crate) fn write_outcomes(
    out: &mut Vec<u8>,
    alloc: Global,
    form: Form,
    p: &Checked,
    sources: &Sources,
    listed: &[Listed],
) -> Result<(), AllocError>
    ensures { OnOk result (out.new.items ≡ out.old.items
        ++ outcome_texts form p.now.program sources.now 1 listed.now) }
{
    for (i, x) in listed.iter().enumerate() {
        write_outcome(out, alloc, form, p, sources, i as u64 + 1, x)?;
    }
    Ok(())
}
