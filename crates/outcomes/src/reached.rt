//! States of the plain machine that a search has found, with steps that lead there.

ghost use Rattle.std.specs.Prelude.{◌≡◌, ◌<◌, IfOk, Some, length, slice_get};
ghost use Rattle.plain_search.specs.Searched.{IsSearched};
ghost use Rattle.outcomes.specs.Lists.{IsReachedBySteps};

use checked_program::Checked;
use history_rule::Plain;
use jvm_types::Rows;
use machine_types::PlainStep;
use plain_search::Found;
use std::alloc::{AllocError, Global};

/// The plain machine in a state, and steps of it that lead there, where these were found.
#[derive(Drop)]
pub struct Reached {
    pub plain: Plain,
    pub steps: Option<Rows<PlainStep>>,
}

/// A state that was found, by its number.
pub(crate) fn reached_at(
    alloc: Global,
    p: &Checked,
    found: &Found,
    k: usize,
) -> Result<Reached, AllocError>
    requires program { p.now ≡ found.now.program }
    requires searched { IsSearched found.now }
    requires place { k < length found.now.states }
    ensures reached { IfOk result (IsReachedBySteps p.now) }
    ensures state { IfOk result (λ r. slice_get found.now.states k ≡ Some r.plain.state) }
{
    Ok(Reached {
        plain: found.at(k).copy(alloc)?,
        steps: found.steps_to(alloc, p, k)?,
    })
}
