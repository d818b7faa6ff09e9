//! What the states that a search has found come to.

ghost use Rattle.std.specs.Prelude.{◌≡◌, ◌≤◌, IfOk, length};
ghost use Rattle.machine_types.specs.Settings.{AreSettings};
ghost use Rattle.outcomes.specs.Lists.{AreOutcomes};
ghost use Rattle.outcomes.specs.declared.all_outcomes.TheConstants.{MOST_OUTCOME_STATES};

use crate::listing::{Listed, list_rests};
use crate::printing::{Printing, list_prints};
use crate::reached::Reached;
use crate::uncaught::find_uncaught;
use checked_program::Checked;
use jvm_types::Rows;
use machine_types::Config;
use plain_search::{Found, MOST_STATES, Watch, watched_search};
use std::alloc::{AllocError, Global};

/// The most states that may be asked for.
pub const MOST_OUTCOME_STATES: u32 = MOST_STATES;

/// The outcomes and the printed numbers of so many states, one of them where an exception that
/// nothing caught ended a part, if there is one, and whether these are all.
#[derive(Drop)]
pub struct Outcomes {
    pub listed: Rows<Listed>,
    pub printed: Rows<Printing>,
    pub uncaught: Option<Reached>,
    pub states: usize,
    pub is_whole: bool,
}

/// What the states that a search has found come to, with orders for these settings.
pub fn list_outcomes(
    alloc: Global,
    p: &Checked,
    cfg: &Config,
    found: &Found,
) -> Result<Outcomes, AllocError>
    requires program { p.now ≡ found.now.program }
    requires settings { AreSettings cfg.now }
    ensures outcomes { IfOk result (AreOutcomes p.now cfg.now) }
    ensures states { IfOk result (λ o. o.states ≡ length found.now.states) }
    ensures whole { IfOk result (λ o. o.is_whole ≡ found.now.is_whole) }
{
    let is_whole = found.is_whole();
    let listed = list_rests(alloc, p, cfg, found)?;
    let printed = list_prints(alloc, p, found)?;
    let uncaught = find_uncaught(alloc, p, found)?;
    Ok(Outcomes {
        listed,
        printed,
        uncaught,
        states: found.len(),
        is_whole,
    })
}

/// What all runs of a program come to, searched for in so many states at most, with orders for
/// these settings; who watches it is told how far the search has come.
pub fn find_outcomes<W: Watch>(
    alloc: Global,
    p: &Checked,
    cfg: &Config,
    states: u32,
    watch: &mut W,
) -> Result<Outcomes, AllocError>
    requires settings { AreSettings cfg.now }
    requires states { states ≤ MOST_OUTCOME_STATES }
    ensures { IfOk result (AreOutcomes p.now cfg.now) }
{
    let found = watched_search(alloc, p, states, watch)?;
    list_outcomes(alloc, p, cfg, &found)
}
