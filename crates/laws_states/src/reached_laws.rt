//! All that holds of the threads and the words in every state that a run reaches.

ghost use Rattle.laws_states.specs.StateLaws.{EventsKeepState, NextKeepsState, RunsHaveState};
ghost use Rattle.laws_states.specs.StateLaws.{StartHasState, StatesHaveFacts};

use crate::part_laws::{
    events_keep_parts, events_put_inits_first, next_keeps_parts, next_puts_inits_first,
    start_puts_inits_first, start_stands_in_parts,
};
use crate::{
    counters_are_kept, events_keep_heap, events_keep_owners, events_keep_waiting, locks_are_kept,
    next_keeps_counters, next_keeps_heap, next_keeps_owners, next_keeps_waiting, records_are_kept,
    run_facts_event, run_facts_start, start_counters_fit, start_has_heap, start_locks_fit,
    start_records_fit, threads_are_kept,
};
use laws_threads::{events_keep_structure, next_keeps_structure};
use machine_types::{start_is_structured, start_owns, start_waits};

/// Among the facts on a state are those by which each word that an event finds is what it is read
/// as.
pub fn states_have_facts()
    ensures { StatesHaveFacts }
{}

/// The facts hold at the start of a run.
pub fn start_has_state()
    ensures { StartHasState }
{
    run_facts_start();
    start_stands_in_parts();
    start_puts_inits_first();
    start_has_heap();
    start_locks_fit();
    start_records_fit();
    start_counters_fit();
    start_is_structured();
    start_owns();
    start_waits();
}

/// An event keeps them, with an object more where a header is stored for the first time.
pub fn events_keep_state()
    ensures { EventsKeepState }
{
    run_facts_event();
    threads_are_kept();
    events_keep_parts();
    events_put_inits_first();
    events_keep_heap();
    locks_are_kept();
    records_are_kept();
    counters_are_kept();
    events_keep_structure();
    events_keep_owners();
    events_keep_waiting();
}

/// So does the begin of a part.
pub fn next_keeps_state()
    ensures { NextKeepsState }
{
    next_keeps_parts();
    next_puts_inits_first();
    next_keeps_heap();
    next_keeps_counters();
    next_keeps_structure();
    next_keeps_owners();
    next_keeps_waiting();
}

/// So they hold after every list of events and begins of parts.
pub fn runs_have_state()
    ensures { RunsHaveState }
{
    start_has_state();
    events_keep_state();
    next_keeps_state();
}
