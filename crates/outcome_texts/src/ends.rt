//! How parts ended, fact by fact.

ghost use Rattle.std.specs.Prelude.{◌≡◌, ◌++◌, ◌∷◌, [], IfOk, OnOk, codes, string_bytes};
ghost use Rattle.std.specs.List.{flat_map};
ghost use Rattle.machine_types.specs.PlainSteps.{first_end, plain_done_end};
ghost use Rattle.outcome_texts.specs.OutcomeFacts.{all_threads, part_end_facts};
ghost use Rattle.outcome_texts.specs.OutcomeFacts.{ends_facts as the_ends_facts};
ghost use Rattle.outcome_texts.specs.OutcomeFacts.{ended_part as the_part};
ghost use Rattle.run_texts.specs.Report.{end_text};
ghost use Rattle.tellings.specs.declared.facts.Fact.TheVariants.{Closes, Item};
ghost use Rattle.tellings.specs.declared.facts.Fact.TheVariants.{Text as TextFact};
ghost use Rattle.tellings.specs.declared.keys.Key.TheVariants.{EndPart, PartEnd};

use checked_program::Checked;
use history_rule::Plain;
use jvm_types::{Bytes, End, Rows};
use run_texts::EndText;
use std::alloc::{AllocError, Global};
use tellings::{Fact, Key};

/// Thread 0 and the workers, of which a program has 8 at most.
pub(crate) const THREADS: [u8; 9] = [0, 1, 2, 3, 4, 5, 6, 7, 8];

fn end_words(alloc: Global, end: End) -> Result<Bytes, AllocError>
    ensures { IfOk result (λ words. words ≡ end_text end) }
{
    let end = EndText(end);
    let mut words = String::new(alloc);
    write!(words, "{end}")?;
    Bytes::from_slice(alloc, words.as_bytes())
}

fn add_told_end(
    facts: &mut Rows<Fact>,
    alloc: Global,
    part: Fact,
    end: End,
) -> Result<(), AllocError>
    ensures { OnOk result (facts.new ≡ facts.old
        ++ Item ∷ part ∷ TextFact PartEnd (end_text end) ∷ Closes ∷ []) }
{
    facts.push(Fact::Item)?;
    facts.push(part)?;
    facts.push(Fact::Text(Key::PartEnd, end_words(alloc, end)?))?;
    facts.push(Fact::Closes)
}

/// Adds how a part ended, where it did and did not return.
fn add_end(
    facts: &mut Rows<Fact>,
    alloc: Global,
    part: Fact,
    end: Option<End>,
) -> Result<(), AllocError>
    ensures { OnOk result (facts.new ≡ facts.old ++ part_end_facts part end) }
{
    match end {
        None | Some(End::Returned) => Ok(()),
        Some(end) => add_told_end(facts, alloc, part, end),
    }
}

fn init_or_done(alloc: Global, part: &[u8]) -> Result<Fact, AllocError>
    ensures { IfOk result (λ fact. fact ≡ TextFact EndPart part.now) }
{
    Ok(Fact::Text(Key::EndPart, Bytes::from_slice(alloc, part)?))
}

/// The first part of a thread.
fn ended_part(alloc: Global, thread: u8) -> Result<Fact, AllocError>
    ensures { IfOk result (λ fact. fact ≡ the_part thread) }
{
    if thread == 0 {
        init_or_done(alloc, b"init")
    } else {
        Ok(Fact::Count(Key::EndThread, u64::from(thread)))
    }
}

fn add_thread_end(
    facts: &mut Rows<Fact>,
    alloc: Global,
    q: &Plain,
    thread: u8,
) -> Result<(), AllocError>
    ensures { OnOk result (facts.new
        ≡ facts.old ++ part_end_facts (the_part thread) (first_end q.now.state thread)) }
{
    let part = ended_part(alloc, thread)?;
    add_end(facts, alloc, part, q.end_at(0, thread))
}

fn add_thread_ends(
    facts: &mut Rows<Fact>,
    alloc: Global,
    q: &Plain,
    threads: &[u8],
) -> Result<(), AllocError>
    ensures { OnOk result (facts.new ≡ facts.old
        ++ flat_map (λ t. part_end_facts (the_part t) (first_end q.now.state t)) threads.now) }
{
    for t in threads {
        add_thread_end(facts, alloc, q, *t)?;
    }
    Ok(())
}

/// Adds how the parts ended that did not return.
pub(crate) fn add_ends(
    facts: &mut Rows<Fact>,
    alloc: Global,
    p: &Checked,
    q: &Plain,
) -> Result<(), AllocError>
    ensures { OnOk result
        (facts.new ≡ facts.old ++ the_ends_facts p.now.program q.now.state) }
{
    facts.push(Fact::Lists(Key::PartEnds))?;
    add_thread_ends(facts, alloc, q, &THREADS)?;
    let done = init_or_done(alloc, b"done")?;
    add_end(facts, alloc, done, q.done_end(alloc, p)?)?;
    facts.push(Fact::Ends)
}
