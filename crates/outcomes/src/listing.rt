//! The outcomes of the states that a search has found.

ghost use Rattle.std.specs.Prelude.{◌≡◌, ◌<◌, ◌++◌, ℕ, Contains, IfOk, IfSome, OnOk, List, Some};
ghost use Rattle.std.specs.Prelude.{length, slice_get, true};
ghost use Rattle.std.specs.List.{AllByRecursion};
ghost use Rattle.machine_types.specs.PlainState.{Plain as State};
ghost use Rattle.machine_types.specs.Settings.{AreSettings};
ghost use Rattle.plain_search.specs.Searched.{HasNoStepAt, IsSearched};
ghost use Rattle.outcomes.specs.Comes.{LeadsTo};
ghost use Rattle.outcomes.specs.Lists.{IsListedIn, IsListedOutcome};

use crate::leading::order_to;
use crate::ordering::Ordered;
use crate::reached::{Reached, reached_at};
use crate::sameness::show_the_same;
use crate::shortening::switches_in;
use checked_program::Checked;
use history_rule::Plain;
use jvm_types::Rows;
use machine_types::Config;
use plain_search::Found;
use std::alloc::{AllocError, Global};

/// An outcome: a state of the plain machine where no step is left, and an order of the running
/// machine that comes to what is shown there, where one was found.
#[derive(Drop)]
pub struct Listed {
    pub at: Reached,
    pub ordered: Option<Ordered>,
}

/// `true`: an outcome of the list shows what a state does.
fn is_listed(alloc: Global, p: &Checked, listed: &[Listed], q: &Plain) -> Result<bool, AllocError>
    ensures { IfOk result (λ b. b ≡ true → IsListedIn p.now.program listed.now q.now.state) }
{
    for x in listed {
        if show_the_same(alloc, p, q, &x.at.plain)? {
            return Ok(true);
        }
    }
    Ok(false)
}

/// An order that comes to what a state shows, where steps lead there.
fn order_of(
    alloc: Global,
    p: &Checked,
    cfg: &Config,
    at: &Reached,
) -> Result<Option<Ordered>, AllocError>
    requires { AreSettings cfg.now }
    ensures { IfOk result (λ o. IfSome o
        (λ r. LeadsTo p.now cfg.now at.now.plain.state r.order r.outcome)) }
{
    match &at.steps {
        Some(steps) => order_to(alloc, p, cfg, steps.as_slice(), &at.plain),
        None => Ok(None),
    }
}

/// The outcome of a state without a step.
fn outcome_of(
    alloc: Global,
    p: &Checked,
    cfg: &Config,
    found: &Found,
    k: u32,
) -> Result<Listed, AllocError>
    requires program { p.now ≡ found.now.program }
    requires settings { AreSettings cfg.now }
    requires searched { IsSearched found.now }
    requires place { k < length found.now.states }
    requires rest { HasNoStepAt p.now found.now.states k }
    ensures outcome { IfOk result (IsListedOutcome p.now cfg.now) }
    ensures state { IfOk result (λ x. slice_get found.now.states k ≡ Some x.at.plain.state) }
{
    let at = reached_at(alloc, p, found, k as usize)?;
    let ordered = order_of(alloc, p, cfg, &at)?;
    Ok(Listed { at, ordered })
}

/// Adds the outcome of a state without a step, where none of the list shows the same.
fn add_outcome(
    alloc: Global,
    p: &Checked,
    cfg: &Config,
    found: &Found,
    listed: &mut Vec<Listed>,
    k: u32,
) -> Result<(), AllocError>
    requires program { p.now ≡ found.now.program }
    requires settings { AreSettings cfg.now }
    requires searched { IsSearched found.now }
    requires place { k < length found.now.states }
    requires rest { HasNoStepAt p.now found.now.states k }
    requires listed { AllByRecursion (IsListedOutcome p.now cfg.now) listed.old.items }
    ensures listed { OnOk result
        (AllByRecursion (IsListedOutcome p.now cfg.now) listed.new.items) }
    ensures longer { OnOk result
        ((more : List Listed) × (listed.new.items ≡ listed.old.items ++ more)) }
    ensures there { OnOk result ((q : State) → slice_get found.now.states k ≡ Some q
        → IsListedIn p.now.program listed.new.items q) }
{
    let q = found.at(k as usize);
    if is_listed(alloc, p, listed.as_slice(), q)? {
        return Ok(());
    }
    let x = outcome_of(alloc, p, cfg, found, k)?;
    listed.push(x)?;
    Ok(())
}

/// The outcomes of the states without a step, each once, in the order of the states.
fn gather_rests(
    alloc: Global,
    p: &Checked,
    cfg: &Config,
    found: &Found,
) -> Result<Vec<Listed>, AllocError>
    requires program { p.now ≡ found.now.program }
    requires settings { AreSettings cfg.now }
    requires searched { IsSearched found.now }
    ensures listed { IfOk result (λ v. AllByRecursion (IsListedOutcome p.now cfg.now) v.items) }
    ensures all { IfOk result (λ v. (k : ℕ) (q : State) → Contains found.now.rests k
        → slice_get found.now.states k ≡ Some q → IsListedIn p.now.program v.items q) }
{
    let mut listed = Vec::new(alloc);
    for k in found.rests() {
        add_outcome(alloc, p, cfg, found, &mut listed, *k)?;
    }
    Ok(listed)
}

/// How often another worker goes on by the order of an outcome; more than any where it has none.
fn many_switches(x: &Listed) -> usize {
    match &x.ordered {
        Some(ordered) => switches_in(ordered.order.as_slice()),
        None => usize::MAX,
    }
}

/// The outcomes of the states without a step, each once: those with the fewest switches between
/// workers first.
pub(crate) fn list_rests(
    alloc: Global,
    p: &Checked,
    cfg: &Config,
    found: &Found,
) -> Result<Rows<Listed>, AllocError>
    requires program { p.now ≡ found.now.program }
    requires settings { AreSettings cfg.now }
    requires searched { IsSearched found.now }
    ensures listed { IfOk result (AllByRecursion (IsListedOutcome p.now cfg.now)) }
    ensures all { IfOk result (λ listed. (k : ℕ) (q : State) → Contains found.now.rests k
        → slice_get found.now.states k ≡ Some q → IsListedIn p.now.program listed q) }
{
    let mut listed = gather_rests(alloc, p, cfg, found)?;
    listed.sort_by_cached_key(|x| many_switches(x))?;
    Ok(Rows::from_vec(listed))
}
