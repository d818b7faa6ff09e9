//! Objects whose `<init>` has not returned.

ghost use Rattle.laws_objects.specs.UnfinishedObjects.{FinishedByOwnReturn, ThrownInitsLeaveNoUse};

use crate::object_laws::start_has_construction;
use laws_states::{
    events_keep_state, events_leave_others, next_keeps_state, parts_keep_threads, start_has_state,
};
use laws_threads::{next_keeps_structure, structure_is_kept};
use machine_types::{frozen_classes_are_told, owned_fields_are_told, start_lies_apart};

/// Once the `<init>` of a frozen class has thrown, of a thread in no attempt, no place has its
/// object and no instruction finds it, in no state that follows (JVMS 2.9).
pub fn thrown_inits_leave_no_use()
    ensures { ThrownInitsLeaveNoUse }
{
    start_lies_apart();
    structure_is_kept();
    next_keeps_structure();
    parts_keep_threads();
    start_has_state();
    events_keep_state();
    next_keeps_state();
    start_has_construction();
    events_leave_others();
    frozen_classes_are_told();
    owned_fields_are_told();
}

/// As long as the `<init>` of a frozen class that a thread runs on an object has not returned,
/// whatever happens, no place and no other thread has the object.
pub fn finished_by_own_return()
    ensures { FinishedByOwnReturn }
{
    start_lies_apart();
    structure_is_kept();
    next_keeps_structure();
    parts_keep_threads();
    start_has_state();
    events_keep_state();
    next_keeps_state();
    start_has_construction();
    events_leave_others();
    frozen_classes_are_told();
    owned_fields_are_told();
}
