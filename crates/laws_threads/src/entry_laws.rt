//! The frames of an attempt's entry, as its thread goes on inside it.

ghost use Rattle.laws_threads.specs.EntryFrames.{LeavesKeepEntry, StepsKeepEntry, ThrowsKeepEntry};

/// An instruction inside leaves the frames of the entry as they were.
pub fn steps_keep_entry()
    ensures { StepsKeepEntry }
{}

/// So does an exception that goes to a handler, or to the calling frame.
pub fn throws_keep_entry()
    ensures { ThrowsKeepEntry }
{}

/// So does what comes behind an exit.
pub fn leaves_keep_entry()
    ensures { LeavesKeepEntry }
{}
