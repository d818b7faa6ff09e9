//! What stands in the words for locking, and how far the counters have come.

ghost use Rattle.laws_states.specs.KeptWords.{EventsKeepCounters, EventsKeepLocks};
ghost use Rattle.laws_states.specs.KeptWords.{EventsKeepRecords, NextKeepsCounters};
ghost use Rattle.laws_states.specs.KeptWords.{StartCountersFit, StartLocksFit, StartRecordsFit};
ghost use Rattle.laws_states.specs.KeptWords.{SumsFit};

use crate::left_laws::left_words_may_stand;
use crate::{events_reach_sites, sites_differ, sites_lie_inside};

/// At the start the lock of each object is free.
pub fn start_locks_fit()
    ensures { StartLocksFit }
{}

/// The lock word of each object stays one, and where it is free its count is at most the last one;
/// the lock of an object whose header is stored is free.
pub fn locks_are_kept()
    ensures { EventsKeepLocks }
{
    sites_differ();
    sites_lie_inside();
    events_reach_sites();
    left_words_may_stand();
}

/// At the start no monitor record has an owner, or a thread that waits.
pub fn start_records_fit()
    ensures { StartRecordsFit }
{}

/// The owner of a monitor record stays a thread or none, and only threads wait there.
pub fn records_are_kept()
    ensures { EventsKeepRecords }
{
    sites_differ();
    sites_lie_inside();
    events_reach_sites();
    left_words_may_stand();
}

/// At the start the counters have not come further than the words of the program.
pub fn start_counters_fit()
    ensures { StartCountersFit }
{}

/// The counters stay within what the threads have done: each instruction makes one object at most
/// and prints once, and one record at most is drawn for each lock that was taken.
pub fn counters_are_kept()
    ensures { EventsKeepCounters }
{
    sites_differ();
    sites_lie_inside();
    events_reach_sites();
}

/// They do so where a part begins.
pub fn next_keeps_counters()
    ensures { NextKeepsCounters }
{}

/// So no sum passes 64 bits.
pub fn sums_fit()
    ensures { SumsFit }
{}
