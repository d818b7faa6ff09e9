//! What a thread holds.

ghost use Rattle.laws_threads.specs.HeldLaws.{HeldHasRoom};

/// A thread that is about to enter a monitor that it does not hold has a place left for it: each
/// monitor that it holds is one that its frames show (JVMS 2.11.10).
pub fn held_has_room()
    ensures { HeldHasRoom }
{}
