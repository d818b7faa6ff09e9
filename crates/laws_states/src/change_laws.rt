//! Who may change what: locks, waiting bits and threads.

ghost use Rattle.laws_states.specs.ChangeLaws.{EventsLeaveOthers, EventsRespectOwners};
ghost use Rattle.laws_states.specs.ChangeLaws.{PartsLeaveWords, RunsRespectOwners};

use crate::{
    events_keep_state, events_reach_sites, next_keeps_state, parts_keep_threads, sites_differ,
    sites_lie_inside, start_has_state,
};

/// A fat lock stays fat, with its record; a lock gets free by its holder alone, with the count
/// behind the one that it kept; and the waiting bits of a record are changed by its owner alone,
/// which sets its own bit and clears bits to notify.
pub fn events_respect_owners()
    ensures { EventsRespectOwners }
{
    sites_differ();
    sites_lie_inside();
    events_reach_sites();
}

/// So it is whatever event happens in a state that a run reaches.
pub fn runs_respect_owners()
    ensures { RunsRespectOwners }
{
    parts_keep_threads();
    start_has_state();
    events_keep_state();
    next_keeps_state();
    events_respect_owners();
}

/// An event of a thread leaves every other thread as it was, in any state of any program.
pub fn events_leave_others()
    ensures { EventsLeaveOthers }
{}

/// The begin of a part leaves all words as they were, and of each thread its attempt and what it
/// holds.
pub fn parts_leave_words()
    ensures { PartsLeaveWords }
{}
