//! What an event inside an attempt counts and prints.

ghost use Rattle.laws_refinement.specs.ElidedSteps.{AttemptsAreCounted, AttemptsPrintNothing};
ghost use Rattle.laws_refinement.specs.ElidedSteps.{FinishesAreCounted};

use laws_threads::{
    elements_inside, inside_may_do, leaves_keep_entry, steps_keep_entry, throws_keep_entry,
};

/// Where the section is not done, an instruction that is begun is pending, or in vain where the
/// attempt fails.
pub fn attempts_are_counted()
    ensures { AttemptsAreCounted }
{
    inside_may_do();
    elements_inside();
    steps_keep_entry();
    throws_keep_entry();
    leaves_keep_entry();
}

/// Where it is done, what was pending is in plain steps, and a section more is taken.
pub fn finishes_are_counted()
    ensures { FinishesAreCounted }
{
    inside_may_do();
    elements_inside();
    steps_keep_entry();
    throws_keep_entry();
    leaves_keep_entry();
}

/// Nothing is printed inside an attempt.
pub fn attempts_print_nothing()
    ensures { AttemptsPrintNothing }
{
    inside_may_do();
    elements_inside();
    steps_keep_entry();
    throws_keep_entry();
    leaves_keep_entry();
}
