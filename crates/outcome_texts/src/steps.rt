//! Steps of the plain machine, fact by fact.

ghost use Rattle.std.specs.Prelude.{◌≡◌, ◌<◌, ◌^◌, ◌++◌, ◌∷◌, [], IfOk, OnOk, codes};
ghost use Rattle.std.specs.Fmt.{decimal};
ghost use Rattle.event_texts.specs.Shares.{act_text};
ghost use Rattle.outcome_texts.specs.StepFacts.{acts_facts, acts_from, dos};
ghost use Rattle.outcome_texts.specs.StepFacts.{steps_facts as the_steps_facts};
ghost use Rattle.outcome_texts.specs.StepFacts.{stretch_facts as the_stretch_facts};
ghost use Rattle.outcome_texts.specs.StepFacts.{stretch_words, stretches_behind, stretches_facts};
ghost use Rattle.tellings.specs.declared.facts.Fact.TheVariants.{Words as WordsFact};

use event_texts::share_texts::ActText;
use jvm_types::{Bytes, Rows};
use machine_types::{Act, PlainStep};
use std::alloc::{AllocError, Global};
use tellings::{Fact, Key, add_count};

fn act_words(alloc: Global, act: Act) -> Result<Bytes, AllocError>
    ensures { IfOk result (λ words. words ≡ act_text act) }
{
    let act = ActText(act);
    let mut words = String::new(alloc);
    write!(words, "{act}")?;
    Bytes::from_slice(alloc, words.as_bytes())
}

fn do_words(alloc: Global, n: usize) -> Result<Bytes, AllocError>
    ensures { IfOk result (λ words. words ≡ codes "do " ++ decimal n) }
{
    let mut words = String::new(alloc);
    write!(words, "do {n}")?;
    Bytes::from_slice(alloc, words.as_bytes())
}

/// Adds how many instructions were run, where there are any.
fn add_dos(texts: &mut Rows<Bytes>, alloc: Global, n: usize) -> Result<(), AllocError>
    ensures { OnOk result (texts.new ≡ texts.old ++ dos n) }
{
    if n == 0 {
        return Ok(());
    }
    texts.push(do_words(alloc, n)?)
}

/// The acts of a thread, in words: instructions that follow each other by their number.
fn acts_texts(alloc: Global, acts: &[Act]) -> Result<Rows<Bytes>, AllocError>
    ensures { IfOk result (λ texts. texts ≡ acts_from 0 acts.now) }
{
    let mut texts = Rows::new(alloc);
    let mut n = 0;
    for act in acts {
        match *act {
            Act::Do => n += 1,
            act => {
                add_dos(&mut texts, alloc, n)?;
                texts.push(act_words(alloc, act)?)?;
                n = 0;
            }
        }
    }
    add_dos(&mut texts, alloc, n)?;
    Ok(texts)
}

/// Adds words that stand on a line alone.
pub(crate) fn add_words(
    facts: &mut Rows<Fact>,
    alloc: Global,
    words: &[u8],
) -> Result<(), AllocError>
    ensures { OnOk result (facts.new ≡ facts.old ++ WordsFact words.now ∷ []) }
{
    facts.push(Fact::Words(Bytes::from_slice(alloc, words)?))
}

#[tactic(auto, unfolding(crate::specs::StepFacts::acts_facts))]
fn add_acts(
    facts: &mut Rows<Fact>,
    alloc: Global,
    thread: u8,
    acts: &[Act],
) -> Result<(), AllocError>
    ensures { OnOk result (facts.new ≡ facts.old ++ acts_facts thread acts.now) }
{
    let texts = acts_texts(alloc, acts)?;
    add_count(facts, Key::StepsThread, u64::from(thread))?;
    facts.push(Fact::Texts(Key::Steps, texts))
}

#[tactic(auto, unfolding(crate::specs::StepFacts::stretch_words))]
fn add_stretch_words(facts: &mut Rows<Fact>, alloc: Global) -> Result<(), AllocError>
    ensures { OnOk result (facts.new ≡ facts.old ++ WordsFact stretch_words ∷ []) }
{
    add_words(facts, alloc, b"\n  steps ")
}

/// Adds what a thread does before another one goes on.
fn add_stretch(
    facts: &mut Rows<Fact>,
    alloc: Global,
    thread: u8,
    acts: &[Act],
) -> Result<(), AllocError>
    ensures { OnOk result (facts.new ≡ facts.old ++ the_stretch_facts thread acts.now) }
{
    add_stretch_words(facts, alloc)?;
    facts.push(Fact::Item)?;
    add_acts(facts, alloc, thread, acts)?;
    facts.push(Fact::Closes)
}

/// The first act of a stretch.
fn one_act(alloc: Global, act: Act) -> Result<Rows<Act>, AllocError>
    ensures { IfOk result (λ acts. acts ≡ act ∷ []) }
{
    let mut acts = Rows::new(alloc);
    acts.push(act)?;
    Ok(acts)
}

/// Adds the stretches of steps of which the first is given.
fn add_stretches(
    facts: &mut Rows<Fact>,
    alloc: Global,
    first: PlainStep,
    steps: &[PlainStep],
) -> Result<(), AllocError>
    ensures { OnOk result
        (facts.new ≡ facts.old ++ stretches_behind first.thread (first.act ∷ []) steps.now) }
{
    let mut thread = first.thread;
    let mut acts = one_act(alloc, first.act)?;
    for step in steps {
        if step.thread == thread {
            acts.push(step.act)?;
        } else {
            add_stretch(facts, alloc, thread, acts.as_slice())?;
            thread = step.thread;
            acts = one_act(alloc, step.act)?;
        }
    }
    add_stretch(facts, alloc, thread, acts.as_slice())
}

fn add_all_stretches(
    facts: &mut Rows<Fact>,
    alloc: Global,
    steps: &[PlainStep],
) -> Result<(), AllocError>
    ensures { OnOk result (facts.new ≡ facts.old ++ stretches_facts steps.now) }
{
    match steps {
        [] => Ok(()),
        [first, others @ ..] => add_stretches(facts, alloc, *first, others),
    }
}

/// Adds steps, where there are any.
pub(crate) fn add_steps(
    facts: &mut Rows<Fact>,
    alloc: Global,
    steps: &Option<Rows<PlainStep>>,
) -> Result<(), AllocError>
    ensures { OnOk result (facts.new ≡ facts.old ++ the_steps_facts steps.now) }
{
    match steps {
        Some(steps) => {
            facts.push(Fact::Lists(Key::PlainSteps))?;
            add_all_stretches(facts, alloc, steps.as_slice())?;
            facts.push(Fact::Ends)
        }
        None => Ok(()),
    }
}
