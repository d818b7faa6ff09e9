//! Safety of the states that a run reaches.

ghost use Rattle.laws_states.specs.RunSafety.{RunsAreSafe};

use crate::{parts_keep_threads, reached_fits, runs_have_state, states_have_facts};

/// In every state that a run reaches each thread is lawful; the access of its next event is of a
/// word that is there, leaves a number of 64 bits, and finds what it is read as; and no live thread
/// is stuck, or stands still.
pub fn runs_are_safe()
    ensures { RunsAreSafe }
{
    parts_keep_threads();
    runs_have_state();
    states_have_facts();
    reached_fits();
}
