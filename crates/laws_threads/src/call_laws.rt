//! What frames show when a method is called and when it returns (JVMS 2.6): each function only
//! states a law.

ghost use Rattle.laws_threads.specs.CallLaws.{CalledStand, CallsEnter, CallsShow};
ghost use Rattle.laws_threads.specs.CallLaws.{ReturnsBehindRelease, ReturnsShow, RootsShow};

/// A called method is one of the program.
pub fn called_stand()
    ensures { CalledStand }
{}

/// The frame of a called method shows its monitor where the method is synchronized, and no other.
pub fn calls_show()
    ensures { CallsShow }
{}

/// There it stands where it is to enter that monitor.
pub fn calls_enter()
    ensures { CallsEnter }
{}

/// The frame of a root shows nothing.
pub fn roots_show()
    ensures { RootsShow }
{}

/// Where a method returns its frame shows its own monitor and no more, and the caller goes on with
/// what it shows.
pub fn returns_show()
    ensures { ReturnsShow }
{}

/// So it is behind the release of the monitor.
pub fn returns_behind_release()
    ensures { ReturnsBehindRelease }
{}
