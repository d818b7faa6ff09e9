//! Threads that stopped, fact by fact.

ghost use Rattle.std.specs.Prelude.{◌≡◌, ◌++◌, OnOk};
ghost use Rattle.std.specs.List.{flat_map};
ghost use Rattle.outcomes.specs.Stops.{stopped_thread as the_stopped_thread};
ghost use Rattle.outcome_texts.specs.OutcomeFacts.{all_stopped_facts, keeper_facts};
ghost use Rattle.outcome_texts.specs.OutcomeFacts.{is_stuck as is_state_stuck, plain_stop_facts};
ghost use Rattle.outcome_texts.specs.OutcomeFacts.{stop_spot as the_spot, stopped_facts};

use crate::ends::THREADS;
use crate::steps::add_words;
use checked_program::Checked;
use event_texts::monitors::add_on_monitor;
use history_rule::Plain;
use jvm_types::Rows;
use outcomes::{Stop, Stopped, stopped_thread};
use place_names::add_place;
use source_lines::Sources;
use std::alloc::{AllocError, Global};
use tellings::{Fact, Key, add_count, add_text};

/// Whether some thread has begun and not ended.
pub(crate) fn is_stuck(q: &Plain) -> bool
    ensures { result ≡ is_state_stuck q.now.state }
{
    THREADS.iter().any(|t| stopped_thread(q, *t).is_some())
}

fn add_stop(
    facts: &mut Rows<Fact>,
    alloc: Global,
    p: &Checked,
    stop: Stop,
) -> Result<(), AllocError>
    ensures { OnOk result (facts.new ≡ facts.old ++ plain_stop_facts p.now.program stop) }
{
    match stop {
        Stop::Enters(m) => add_on_monitor(facts, alloc, Key::Does, p, b"enters", m),
        Stop::TakesBack(m) => add_on_monitor(facts, alloc, Key::Does, p, b"takes back", m),
        Stop::Waits(m) => add_on_monitor(facts, alloc, Key::Does, p, b"waits for", m),
        Stop::Stands => add_text(facts, alloc, Key::Does, b"stands"),
    }
}

/// Where the instruction is that stops a thread, which stands behind its call of `wait` or behind
/// its `monitorenter`.
fn stop_spot(stop: Stop, pc: u32) -> u32
    ensures { result ≡ the_spot stop pc }
{
    match stop {
        Stop::Waits(_) | Stop::TakesBack(_) => pc.saturating_sub(3),
        Stop::Enters(_) => pc.saturating_sub(1),
        Stop::Stands => pc,
    }
}

fn add_holder(facts: &mut Rows<Fact>, holder: Option<u8>) -> Result<(), AllocError>
    ensures { OnOk result (facts.new ≡ facts.old ++ keeper_facts holder) }
{
    match holder {
        Some(t) => add_count(facts, Key::HeldBy, u64::from(t)),
        None => Ok(()),
    }
}

fn add_stopped(
    facts: &mut Rows<Fact>,
    alloc: Global,
    p: &Checked,
    sources: &Sources,
    stopped: Option<Stopped>,
) -> Result<(), AllocError>
    ensures { OnOk result
        (facts.new ≡ facts.old ++ stopped_facts p.now.program sources.now stopped) }
{
    let Some(s) = stopped else {
        return Ok(());
    };
    add_words(facts, alloc, b"\n ")?;
    facts.push(Fact::Item)?;
    add_count(facts, Key::Thread, u64::from(s.thread))?;
    add_place(facts, alloc, p, sources, s.method, stop_spot(s.stop, s.pc))?;
    add_stop(facts, alloc, p, s.stop)?;
    add_holder(facts, s.holder)?;
    facts.push(Fact::Closes)
}

fn add_each_stopped(
    facts: &mut Rows<Fact>,
    alloc: Global,
    p: &Checked,
    sources: &Sources,
    q: &Plain,
    threads: &[u8],
) -> Result<(), AllocError>
    ensures { OnOk result (facts.new ≡ facts.old ++ flat_map
        (λ t. stopped_facts p.now.program sources.now (the_stopped_thread q.now.state t))
        threads.now) }
{
    for t in threads {
        add_stopped(facts, alloc, p, sources, stopped_thread(q, *t))?;
    }
    Ok(())
}

/// Adds the threads that have begun and not ended, where there are any: where each stands, and what
/// keeps it.
pub(crate) fn add_all_stopped(
    facts: &mut Rows<Fact>,
    alloc: Global,
    p: &Checked,
    sources: &Sources,
    q: &Plain,
) -> Result<(), AllocError>
    ensures { OnOk result
        (facts.new ≡ facts.old ++ all_stopped_facts p.now.program sources.now q.now.state) }
{
    if !is_stuck(q) {
        return Ok(());
    }
    facts.push(Fact::Lists(Key::Stopped))?;
    add_each_stopped(facts, alloc, p, sources, q, &THREADS)?;
    facts.push(Fact::Ends)
}
