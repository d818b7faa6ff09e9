//! Whole runs.

ghost use Rattle.laws_refinement.specs.FaithfulRuns.{AreElidedLaws, AreEventLaws};
ghost use Rattle.laws_refinement.specs.FaithfulRuns.{LockedRunsAreFaithful, LockedRunsFollow};
ghost use Rattle.laws_refinement.specs.FaithfulRuns.{RunsAreFaithful, RunsFollow};
ghost use Rattle.laws_refinement.specs.RunsStand.{RunsStand};

use crate::{
    attempts_are_counted, attempts_are_silent, attempts_print_nothing, attempts_stand_beside,
    finishes_are_counted, others_keep_attempts, own_keeps_attempt, sections_finish,
};
use laws_objects::{
    events_keep_construction, events_keep_guards, next_keeps_construction, start_has_construction,
};
use laws_simulation::{
    frame_steps, lock_steps, memory_steps, next_stands_beside, onward_steps, start_stands_beside,
    wait_phase_steps, waiting_steps,
};
use laws_states::{
    events_keep_state, events_make_no_attempts, next_keeps_state, next_makes_no_attempts,
    parts_keep_threads, start_has_no_attempts, start_has_state,
};
use laws_threads::given_is_kept;
use machine_types::{frozen_classes_are_told, instructions_change_memory, owned_fields_are_told};

/// Where each event outside attempts stands for plain steps, and each one inside for none but where
/// its section is done, every run is faithful: its shadow is a plain run, whose steps its counts
/// count, whose prints are its own, and whose parts ended as its own; and no event inside an
/// attempt changes a word.
pub fn runs_follow()
    ensures { RunsFollow }
{
    given_is_kept();
    instructions_change_memory();
}

/// Every run of the machine is faithful to a run of the plain machine with ordinary monitors, event
/// by event, where sections run without their lock, too (PLDI 2010 publication; JVMS 2.11.10; JLS
/// 17.1, 17.2).
pub fn runs_are_faithful()
    ensures { RunsAreFaithful }
{
    runs_follow();
    event_laws();
}

/// Where each event stands for plain steps, a run with its attempts turned off is faithful, as
/// every run is.
pub fn locked_runs_follow()
    ensures { LockedRunsFollow }
{
    locked_runs_are_faithful();
}

/// With attempts turned off, every run of the machine is faithful to a run of the plain machine
/// with ordinary monitors, event by event, as every run is (JVMS 2.11.10; JLS 17.1, 17.2).
pub fn locked_runs_are_faithful()
    ensures { LockedRunsAreFaithful }
{
    runs_are_faithful();
}

/// After every list of events all facts hold: those on the state, on objects under construction and
/// on attempts, beside the plain state that the list stands for.
pub fn runs_stand()
    ensures { RunsStand }
{
    given_is_kept();
    instructions_change_memory();
    event_laws();
}

// The laws of events that both come from: outside attempts, and with attempts.
fn event_laws()
    ensures events { AreEventLaws }
    ensures elided { AreElidedLaws }
{
    // events outside attempts
    frame_steps();
    memory_steps();
    waiting_steps();
    onward_steps();
    lock_steps();
    wait_phase_steps();
    next_stands_beside();
    start_stands_beside();
    start_has_state();
    events_keep_state();
    next_keeps_state();
    parts_keep_threads();
    start_has_no_attempts();
    events_make_no_attempts();
    next_makes_no_attempts();
    // objects under construction, guards, and attempts
    start_has_construction();
    events_keep_construction();
    next_keeps_construction();
    events_keep_guards();
    others_keep_attempts();
    own_keeps_attempt();
    attempts_are_silent();
    attempts_stand_beside();
    sections_finish();
    attempts_are_counted();
    finishes_are_counted();
    attempts_print_nothing();
    frozen_classes_are_told();
    owned_fields_are_told();
}
