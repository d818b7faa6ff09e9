//! What frames show when an exception is thrown, caught, or ends a frame (JVMS 2.10): each function
//! only states a law.

ghost use Rattle.laws_threads.specs.ThrowLaws.{CaughtShows, EffectsThrow, ThrowsShow};
ghost use Rattle.laws_threads.specs.ThrowLaws.{UnwindsBehindRelease, UnwoundShows};

/// An effect that may throw is one of an instruction that can.
pub fn effects_throw()
    ensures { EffectsThrow }
{}

/// Where it throws the frames show what they did before.
pub fn throws_show()
    ensures { ThrowsShow }
{}

/// So they do where the top one catches it.
pub fn caught_shows()
    ensures { CaughtShows }
{}

/// Where it ends the top frame, that shows its own monitor and no more, and the frame below throws
/// it on.
pub fn unwound_shows()
    ensures { UnwoundShows }
{}

/// So it is behind the release of the monitor.
pub fn unwinds_behind_release()
    ensures { UnwindsBehindRelease }
{}
