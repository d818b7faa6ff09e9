//! What holds of every reached state, so that each word that an event finds is what it is read as.

ghost use Rattle.laws_states.specs.RunLaws.{EventsKeepFacts, EventsKeepThreads, NextKeepsFacts};
ghost use Rattle.laws_states.specs.RunLaws.{ReachedFits, RunsReach, StartHasRunFacts};

use crate::kept_laws::{
    counters_are_kept, locks_are_kept, next_keeps_counters, records_are_kept, start_counters_fit,
    start_locks_fit, start_records_fit,
};
use crate::left_laws::left_words_may_stand;
use crate::{
    events_keep_heap, events_reach_sites, heap_words_fit, next_keeps_heap, sites_lie_inside,
    start_has_heap,
};
use laws_threads::{events_fit_parts, given_is_kept, lawful_is_kept, next_keeps_structure};

/// All that holds of the words in every reached state holds at the start.
pub fn run_facts_start()
    ensures { StartHasRunFacts }
{
    start_has_heap();
    start_locks_fit();
    start_records_fit();
    start_counters_fit();
}

/// An event keeps it.
pub fn run_facts_event()
    ensures { EventsKeepFacts }
{
    sites_lie_inside();
    events_reach_sites();
    heap_words_fit();
    left_words_may_stand();
    events_keep_heap();
    locks_are_kept();
    records_are_kept();
    counters_are_kept();
}

/// So does the begin of a part.
pub fn run_facts_next()
    ensures { NextKeepsFacts }
{
    next_keeps_structure();
    next_keeps_heap();
    next_keeps_counters();
}

/// The word that a thread's next event accesses is there and is what the thread reads it as, and
/// what the event leaves of it fits 64 bits.
pub fn reached_fits()
    ensures { ReachedFits }
{
    sites_lie_inside();
    events_reach_sites();
    heap_words_fit();
    left_words_may_stand();
}

/// So an event keeps the threads of a run lawful.
pub fn threads_are_kept()
    ensures { EventsKeepThreads }
{
    given_is_kept();
    lawful_is_kept();
    reached_fits();
    events_fit_parts();
}

/// So it holds after every list of events and begins of parts, where those that begin are lawful.
pub fn runs_reach()
    ensures { RunsReach }
{
    run_facts_start();
    run_facts_event();
    run_facts_next();
    threads_are_kept();
}
