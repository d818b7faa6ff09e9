//! Runs in which no section is tried without its lock.

ghost use Rattle.laws_states.specs.PartsLaws.{EventsMakeNoAttempts, NextMakesNoAttempts};
ghost use Rattle.laws_states.specs.PartsLaws.{NoAttempts, StartHasNoAttempts};

use crate::reached_laws::{events_keep_state, next_keeps_state, start_has_state};

/// At the start no thread is in an attempt.
pub fn start_has_no_attempts()
    ensures { StartHasNoAttempts }
{}

/// Where the settings say that no section is tried without its lock, no event makes an attempt.
pub fn events_make_no_attempts()
    ensures { EventsMakeNoAttempts }
{}

/// Nor does the begin of a part.
pub fn next_makes_no_attempts()
    ensures { NextMakesNoAttempts }
{}

/// So in a run with these settings no thread is ever in an attempt.
pub fn no_attempts()
    ensures { NoAttempts }
{
    start_has_state();
    events_keep_state();
    next_keeps_state();
    start_has_no_attempts();
    events_make_no_attempts();
    next_makes_no_attempts();
}
