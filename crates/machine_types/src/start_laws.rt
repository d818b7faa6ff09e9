//! Laws of the facts at the start of a run, each the contract of a function that does nothing.

ghost use Rattle.machine_types.specs.StartLaws.{ClassObjectsStand, StartAgrees, StartHasFacts};
ghost use Rattle.machine_types.specs.StartLaws.{StartHasThreads};
ghost use Rattle.machine_types.specs.StartLaws.{StartIsStructured, StartIsTyped, StartIsUnused};
ghost use Rattle.machine_types.specs.StartLaws.{StartKeeps, StartLiesApart, StartOwesNothing};
ghost use Rattle.machine_types.specs.StartLaws.{StartOwns, StartStandsBeside, StartWaits};

/// Each thread has its number and settings, and the roots of its part.
pub fn start_has_threads()
    ensures { StartHasThreads }
{}

/// No thread has a frame, holds a monitor or is in an attempt.
pub fn start_is_structured()
    ensures { StartIsStructured }
{}

/// No waiting bit is set.
pub fn start_waits()
    ensures { StartWaits }
{}

/// Each thread has values of the types that are asked for.
pub fn start_is_typed()
    ensures { StartIsTyped }
{}

/// No thread has an unfinished object.
pub fn start_keeps_objects()
    ensures { StartKeeps }
{}

/// Nothing is due of an attempt.
pub fn start_owes_nothing()
    ensures { StartOwesNothing }
{}

/// No thread holds the lock of an object.
pub fn start_owns()
    ensures { StartOwns }
{}

/// In a linked program no place belongs to two objects or static fields, and each static field has
/// its place.
pub fn start_lies_apart()
    ensures { StartLiesApart }
{}

/// The class of each file is one of the objects that are there, with a lock of its own.
pub fn class_objects_stand()
    ensures { ClassObjectsStand }
{}

/// The words behind them are 0.
pub fn start_is_unused()
    ensures { StartIsUnused }
{}

/// All facts hold at the start of a run of a linked program.
pub fn start_has_facts()
    ensures { StartHasFacts }
{}

/// The start of the plain machine agrees with it.
pub fn start_agrees()
    ensures { StartAgrees }
{}

/// So the start of the plain machine stands beside the facts.
pub fn start_stands_beside()
    ensures { StartStandsBeside }
{}
