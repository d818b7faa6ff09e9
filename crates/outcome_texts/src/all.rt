//! What is told of all outcomes together.

ghost use Rattle.std.specs.Prelude.{◌≡◌, ◌==◌, ◌+◌, ◌≤◌, ◌++◌, ◌∷◌, ◌&&◌, [], IfOk, OnOk};
ghost use Rattle.std.specs.Prelude.{codes, length};
ghost use Rattle.std.specs.List.{flat_map};
ghost use Rattle.outcome_texts.specs.AllFacts.{outcome_count_facts as the_count_facts, never_text};
ghost use Rattle.outcome_texts.specs.AllFacts.{never_facts as the_never_facts};
ghost use Rattle.outcome_texts.specs.AllFacts.{printed_facts as the_printed_facts};
ghost use Rattle.outcome_texts.specs.AllFacts.{stuck_count as the_stuck_count, things};
ghost use Rattle.outcome_texts.specs.AllFacts.{never_name as the_never_name, never_text_if};
ghost use Rattle.outcome_texts.specs.AllFacts.{all_text, endless_text, endless_text_if};
ghost use Rattle.outcome_texts.specs.AllFacts.{endless_facts as the_endless_facts, tried_facts};
ghost use Rattle.outcome_texts.specs.AllFacts.{endless_name as the_endless_name};
ghost use Rattle.outcome_texts.specs.AllFacts.{tried_name as the_tried_name};
ghost use Rattle.outcome_texts.specs.AllFacts.{tried_words as the_tried_words};
ghost use Rattle.tellings.specs.Forms.{told_in};
ghost use Rattle.tellings.specs.declared.facts.Fact.TheVariants.{Closes, Item};
ghost use Rattle.tellings.specs.declared.facts.Fact.TheVariants.{Value as ValueFact};
ghost use Rattle.tellings.specs.declared.facts.Fact.TheVariants.{Words as WordsFact};
ghost use Rattle.tellings.specs.declared.keys.Key.TheVariants.{PrintAlone};

use crate::prints::add_dash_if_none;
use crate::steps::add_words;
use crate::stops::is_stuck;
use json_lines::Form;
use jvm_types::{Bytes, Rows};
use outcomes::{Listed, Outcomes, Printing};
use std::alloc::{AllocError, Global};
use tellings::{Fact, Key, add_count, add_text, write_told};

/// How many outcomes have a thread that waits for ever.
fn stuck_count(listed: &[Listed]) -> usize
    ensures count { result ≡ the_stuck_count listed.now }
    ensures few { result ≤ length listed.now }
{
    let mut count = 0;
    for x in listed {
        if is_stuck(&x.at.plain) {
            count += 1;
        }
    }
    count
}

/// One thing, or some.
fn things(alloc: Global, one: &str, n: usize, behind: &str) -> Result<Fact, AllocError>
    ensures { IfOk result (λ fact. fact ≡ WordsFact (things one.now n ++ behind.now)) }
{
    let mut words = Vec::new(alloc);
    words.extend_from_slice(one.as_bytes())?;
    if n != 1 {
        words.extend_from_slice(b"s")?;
    }
    words.extend_from_slice(behind.as_bytes())?;
    Ok(Fact::Words(Bytes::from_vec(words)))
}

#[tactic(auto, unfolding(crate::specs::AllFacts::tried_words))]
fn tried_words(is_whole: bool) -> &'static str
    ensures { result.now ≡ the_tried_words is_whole }
{
    if is_whole {
        ", and no other"
    } else {
        ", and not all orders were tried"
    }
}

#[tactic(auto, unfolding(crate::specs::AllFacts::tried_name))]
fn tried_name(is_whole: bool) -> &'static str
    ensures { result.now ≡ the_tried_name is_whole }
{
    if is_whole { "all" } else { "not all" }
}

/// Adds whether all orders were tried.
fn add_tried(facts: &mut Rows<Fact>, alloc: Global, is_whole: bool) -> Result<(), AllocError>
    ensures { OnOk result (facts.new ≡ facts.old ++ tried_facts is_whole) }
{
    add_words(facts, alloc, tried_words(is_whole).as_bytes())?;
    add_text(facts, alloc, Key::AreTried, tried_name(is_whole).as_bytes())
}

/// How many outcomes there are, of how many states, and whether there is no other.
fn outcome_count_facts(alloc: Global, o: &Outcomes) -> Result<Rows<Fact>, AllocError>
    ensures { IfOk result (λ facts. facts ≡ the_count_facts o.now) }
{
    let many = o.listed.len();
    let mut facts = Rows::new(alloc);
    add_count(&mut facts, Key::OutcomeCount, many as u64)?;
    facts.push(things(alloc, " outcome", many, " of ")?)?;
    add_count(&mut facts, Key::StateCount, o.states as u64)?;
    facts.push(things(alloc, " state", o.states, "")?)?;
    let stuck = stuck_count(o.listed.as_slice());
    add_count(&mut facts, Key::StuckCount, stuck as u64)?;
    add_tried(&mut facts, alloc, o.is_whole)?;
    Ok(facts)
}

fn add_values(facts: &mut Rows<Fact>, printed: &[Printing]) -> Result<(), AllocError>
    ensures { OnOk result (facts.new ≡ facts.old
        ++ flat_map (λ x. Item ∷ ValueFact PrintAlone x.value ∷ Closes ∷ []) printed.now) }
{
    for x in printed {
        facts.push(Fact::Item)?;
        facts.push(Fact::Value(Key::PrintAlone, x.value))?;
        facts.push(Fact::Closes)?;
    }
    Ok(())
}

/// The printed numbers, each once.
fn printed_facts(alloc: Global, printed: &[Printing]) -> Result<Rows<Fact>, AllocError>
    ensures { IfOk result (λ facts. facts ≡ the_printed_facts printed.now) }
{
    let mut facts = Rows::new(alloc);
    facts.push(Fact::Lists(Key::AllPrinted))?;
    add_dash_if_none(&mut facts, alloc, printed)?;
    add_values(&mut facts, printed)?;
    facts.push(Fact::Ends)?;
    Ok(facts)
}

#[tactic(auto, unfolding(crate::specs::AllFacts::never_facts))]
fn never_facts(alloc: Global) -> Result<Rows<Fact>, AllocError>
    ensures { IfOk result (λ facts. facts ≡ the_never_facts) }
{
    let mut facts = Rows::new(alloc);
    let words = b"in no run do all that have not ended wait for ever";
    add_words(&mut facts, alloc, words)?;
    Ok(facts)
}

/// Whether all orders were tried, and no outcome has a thread that waits for ever.
fn is_never_stuck(o: &Outcomes) -> bool
    ensures { result ≡ (o.now.is_whole && the_stuck_count o.now.listed == 0) }
{
    o.is_whole && stuck_count(o.listed.as_slice()) == 0
}

#[tactic(auto, unfolding(crate::specs::AllFacts::never_name))]
fn never_name() -> &'static str
    ensures { result.now ≡ the_never_name }
{
    "never_stuck"
}

fn write_never_facts(out: &mut Vec<u8>, alloc: Global, form: Form) -> Result<(), AllocError>
    ensures { OnOk result
        (out.new.items ≡ out.old.items ++ told_in form the_never_name the_never_facts) }
{
    let facts = never_facts(alloc)?;
    write_told(out, alloc, form, never_name(), facts.as_slice())
}

/// Adds that no run waits for ever, where that is so.
fn write_never_if(
    out: &mut Vec<u8>,
    alloc: Global,
    form: Form,
    is_never: bool,
) -> Result<(), AllocError>
    ensures { OnOk result (out.new.items ≡ out.old.items ++ never_text_if form is_never) }
{
    match is_never {
        true => write_never_facts(out, alloc, form),
        false => Ok(()),
    }
}

/// Adds that no run waits for ever, where all orders were tried and none was found that does.
fn write_never(out: &mut Vec<u8>, alloc: Global, form: Form, o: &Outcomes) -> Result<(), AllocError>
    ensures { OnOk result (out.new.items ≡ out.old.items ++ never_text form o.now) }
{
    write_never_if(out, alloc, form, is_never_stuck(o))
}

#[tactic(auto, unfolding(crate::specs::AllFacts::endless_facts))]
fn endless_facts(alloc: Global) -> Result<Rows<Fact>, AllocError>
    ensures { IfOk result (λ facts. facts ≡ the_endless_facts) }
{
    let mut facts = Rows::new(alloc);
    let words = b"no run ends: in each some thread can always go on";
    add_words(&mut facts, alloc, words)?;
    Ok(facts)
}

/// Whether all orders were tried, and there is no outcome.
fn is_endless(o: &Outcomes) -> bool
    ensures { result ≡ (o.now.is_whole && length o.now.listed == 0) }
{
    o.is_whole && o.listed.len() == 0
}

#[tactic(auto, unfolding(crate::specs::AllFacts::endless_name))]
fn endless_name() -> &'static str
    ensures { result.now ≡ the_endless_name }
{
    "endless"
}

fn write_endless_facts(out: &mut Vec<u8>, alloc: Global, form: Form) -> Result<(), AllocError>
    ensures { OnOk result
        (out.new.items ≡ out.old.items ++ told_in form the_endless_name the_endless_facts) }
{
    let facts = endless_facts(alloc)?;
    write_told(out, alloc, form, endless_name(), facts.as_slice())
}

/// Adds that no run ends, where that is so.
fn write_endless_if(
    out: &mut Vec<u8>,
    alloc: Global,
    form: Form,
    is_endless: bool,
) -> Result<(), AllocError>
    ensures { OnOk result (out.new.items ≡ out.old.items ++ endless_text_if form is_endless) }
{
    match is_endless {
        true => write_endless_facts(out, alloc, form),
        false => Ok(()),
    }
}

/// Adds that no run waits for ever, and that none ends, where that is so.
fn write_always(
    out: &mut Vec<u8>,
    alloc: Global,
    form: Form,
    o: &Outcomes,
) -> Result<(), AllocError>
    ensures { OnOk result
        (out.new.items ≡ out.old.items ++ never_text form o.now ++ endless_text form o.now) }
{
    write_never(out, alloc, form, o)?;
    write_endless_if(out, alloc, form, is_endless(o))
}

fn write_counts(
    out: &mut Vec<u8>,
    alloc: Global,
    form: Form,
    o: &Outcomes,
) -> Result<(), AllocError>
    ensures { OnOk result
        (out.new.items ≡ out.old.items ++ told_in form (codes "all") (the_count_facts o.now)) }
{
    let facts = outcome_count_facts(alloc, o)?;
    write_told(out, alloc, form, "all", facts.as_slice())
}

fn write_printed(
    out: &mut Vec<u8>,
    alloc: Global,
    form: Form,
    printed: &[Printing],
) -> Result<(), AllocError>
    ensures { OnOk result (out.new.items ≡ out.old.items
        ++ told_in form (codes "printed") (the_printed_facts printed.now)) }
{
    let facts = printed_facts(alloc, printed)?;
    write_told(out, alloc, form, "printed", facts.as_slice())
}

/// Adds how many outcomes there are, the printed numbers, and that no run waits for ever, or that
/// none ends, where that is so.
pub(crate) fn write_all(
    out: &mut Vec<u8>,
    alloc: Global,
    form: Form,
    o: &Outcomes,
) -> Result<(), AllocError>
    ensures { OnOk result (out.new.items ≡ out.old.items ++ all_text form o.now) }
{
    write_counts(out, alloc, form, o)?;
    write_printed(out, alloc, form, o.printed.as_slice())?;
    write_always(out, alloc, form, o)
}
