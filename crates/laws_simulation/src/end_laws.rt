//! How the parts of a run ended.

ghost use Rattle.laws_simulation.specs.OutcomeLaws.{EndsAreThose, EventsKeepNone, NextKeepsNone};
ghost use Rattle.laws_simulation.specs.OutcomeLaws.{StartKeepsNone};

use laws_threads::given_is_kept;

/// An event leaves what thread 0 alone keeps of an earlier part.
pub fn events_keep_none()
    ensures { EventsKeepNone }
{
    given_is_kept();
}

/// So does the begin of a part.
pub fn next_keeps_none()
    ensures { NextKeepsNone }
{}

/// At the start no thread has had a part before.
pub fn start_keeps_none()
    ensures { StartKeepsNone }
{}

/// When a run is over, each of its parts ended as that of the plain state, unless a limit ended it
/// or it never began.
pub fn ends_are_those()
    ensures { EndsAreThose }
{}
