//! How long a section goes on without its lock, once its lock word is no longer as it was noted.

ghost use Rattle.laws_refinement.specs.TornRuns.{NotedNeverReturns, TornRunsAreShort};

use laws_sections::methods_are_apart;
use laws_states::{
    events_reach_sites, parts_keep_threads, runs_are_safe, runs_have_state, sites_differ,
    sites_lie_inside,
};
use laws_threads::{elements_inside, inside_may_do};

/// Once the lock word of an attempt's monitor is no longer as the attempt noted it, it is never so
/// again while the attempt is open: a release raises the count, and the last count is not noted
/// (PLDI 2010 publication, of read-only sections without their lock).
pub fn noted_never_returns()
    ensures { NotedNeverReturns }
{
    parts_keep_threads();
    runs_have_state();
    sites_differ();
    sites_lie_inside();
    events_reach_sites();
}

/// From then on the attempt begins at most as many instructions as its section's method reaches: it
/// fails at the next jump back, call, exception or exit.
pub fn torn_runs_are_short()
    ensures { TornRunsAreShort }
{
    inside_may_do();
    elements_inside();
    runs_are_safe();
    methods_are_apart();
    noted_never_returns();
}
