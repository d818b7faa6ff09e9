//! What the words hold of objects and places, in every state that is reached.

ghost use Rattle.laws_states.specs.HeapLaws.{EventsKeepHeap, NextKeepsHeap, StartHasHeap};

use laws_threads::structure_is_kept;
use machine_types::{start_agrees, start_is_typed, start_is_unused, start_lies_apart};

/// At the start the ready objects and the classes are there, with the static fields as they begin,
/// and all words behind them are 0.
pub fn start_has_heap()
    ensures { StartHasHeap }
{
    start_lies_apart();
    start_agrees();
    start_is_unused();
    start_is_typed();
}

/// Whatever an event does, places have values of their types, objects lie apart, and unused words
/// are 0; an object is there as soon as its header is stored (JVMS 2.3, 2.4, 6.5 `new`).
pub fn events_keep_heap()
    ensures { EventsKeepHeap }
{
    structure_is_kept();
    start_lies_apart();
}

/// The same holds where a part of the run begins.
pub fn next_keeps_heap()
    ensures { NextKeepsHeap }
{}
