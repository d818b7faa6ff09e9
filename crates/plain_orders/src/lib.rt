//! Laws of the orders in which the steps of the plain machine may come: which lists of its states
//! stand for all runs, whatever their order.
#![tactic(auto)]

ghost use Rattle.plain_orders.specs.CoveredRuns.{PrintsAreCovered, RunsAreCovered};
ghost use Rattle.plain_orders.specs.EndedRuns.{EndsAreCovered};
ghost use Rattle.plain_orders.specs.LocalSteps.{LocalStepsAreAlone, LocalStepsAreOwn};
ghost use Rattle.plain_orders.specs.LocalSteps.{LocalStepsSwap};
ghost use Rattle.plain_orders.specs.UncaughtRuns.{UncaughtIsCovered};

use laws_refinement::{runs_are_faithful, runs_stand};

/// A local step makes of its thread what that alone tells, comes to the same before and behind a
/// step of another thread, and is the only one that its thread has.
pub fn local_steps_commute()
    ensures own { LocalStepsAreOwn }
    ensures swap { LocalStepsSwap }
    ensures alone { LocalStepsAreAlone }
{}

/// Every run of the machine stands for a plain run whose state is covered by any list of plain
/// states that is closed under steps up to local ones.
pub fn runs_are_covered()
    ensures { RunsAreCovered }
{
    runs_are_faithful();
}

/// The prints and ends of each run that is over, and of which no limit ended a part, are those of a
/// state at rest of such a list.
pub fn ends_are_covered()
    ensures { EndsAreCovered }
{
    runs_are_faithful();
    runs_stand();
}

/// What a run has printed at any time a state of such a list has printed.
pub fn prints_are_covered()
    ensures { PrintsAreCovered }
{
    runs_are_covered();
}

/// Where the report of a run tells, at any time, of an exception that nothing caught, one has ended
/// a part of a state of such a list.
pub fn uncaught_is_covered()
    ensures { UncaughtIsCovered }
{
    runs_stand();
}
