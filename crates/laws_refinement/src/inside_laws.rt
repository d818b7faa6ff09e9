//! The words that an event inside an attempt leaves, and the plain state that stands beside.

ghost use Rattle.laws_refinement.specs.ElidedSteps.{AttemptsAreSilent, AttemptsStandBeside};

use laws_states::events_keep_state;
use laws_threads::{
    elements_inside, inside_may_do, leaves_keep_entry, steps_keep_entry, throws_keep_entry,
};

/// An event inside an attempt changes no word.
pub fn attempts_are_silent()
    ensures { AttemptsAreSilent }
{
    inside_may_do();
    elements_inside();
}

/// Where it does not end its section, it stands for no plain step: its thread is still about to
/// enter, with its frames as they were.
pub fn attempts_stand_beside()
    ensures { AttemptsStandBeside }
{
    inside_may_do();
    elements_inside();
    steps_keep_entry();
    throws_keep_entry();
    leaves_keep_entry();
    events_keep_state();
}
