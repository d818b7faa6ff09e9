//! Owners of locks, and who waits.

ghost use Rattle.laws_states.specs.OwnersLaws.{EventsKeepOwners, NextKeepsOwners};
ghost use Rattle.laws_states.specs.WaitingLaws.{EventsKeepWaiting, NextKeepsWaiting};

use crate::{events_reach_sites, sites_differ, sites_lie_inside};
use laws_threads::given_is_kept;

/// Whatever an event does, the lock words and the owners of monitor records say of each monitor
/// what the threads hold of it; a record belongs to one monitor, and a count that a thread has seen
/// is no later one (PLDI 2010 publication, of the flat lock with its count).
pub fn events_keep_owners()
    ensures { EventsKeepOwners }
{
    sites_differ();
    sites_lie_inside();
    events_reach_sites();
    given_is_kept();
}

/// Where a part of the run begins, each thread holds what it held.
pub fn next_keeps_owners()
    ensures { NextKeepsOwners }
{}

/// Whatever an event does, a thread's bit is set in the waiting bits of a record only while it
/// gives that record's monitor up or looks whether it was notified: a thread sets its own bit
/// alone, and one that clears bits owns the record.
pub fn events_keep_waiting()
    ensures { EventsKeepWaiting }
{
    sites_differ();
    sites_lie_inside();
    events_reach_sites();
}

/// Where a part of the run begins, nobody waits who did not.
pub fn next_keeps_waiting()
    ensures { NextKeepsWaiting }
{}
