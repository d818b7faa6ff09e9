//! Attempts to run a section without its lock.

ghost use Rattle.laws_threads.specs.AttemptLaws.{AttemptsAreBased};

/// The frame that entered the section stands at the base of the attempt, below those of the methods
/// that it calls.
pub fn attempts_are_based()
    ensures { AttemptsAreBased }
{}
