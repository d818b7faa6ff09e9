//! What frames show when the top one moves within its method: each function only states a law.

ghost use Rattle.laws_threads.specs.MoveLaws.{EffectsFollowEdges, EffectsShow, ElementsShow};
ghost use Rattle.laws_threads.specs.MoveLaws.{EntersShow, LeavesShow, MakingShows, MovesShow};
ghost use Rattle.laws_threads.specs.MoveLaws.{PushedShows};

/// An instruction that enters and leaves no monitor shows what it did before, along each of its
/// edges.
pub fn moves_show()
    ensures { MovesShow }
{}

/// An effect that goes on in the same frame goes along an edge of such an instruction.
pub fn effects_follow_edges()
    ensures { EffectsFollowEdges }
{}

/// So what is shown stays under such an effect.
pub fn effects_show()
    ensures { EffectsShow }
{}

/// It stays when an element was read or written.
pub fn elements_show()
    ensures { ElementsShow }
{}

/// It stays where an object was made whose reference is still to be pushed.
#[tactic(auto, using(crate::proofs::MoveProofs::making_law))]
pub fn making_shows()
    ensures { MakingShows }
{}

/// And when it is pushed.
#[tactic(auto, using(crate::proofs::MoveProofs::pushed_law))]
pub fn pushed_shows()
    ensures { PushedShows }
{}

/// Behind a `monitorenter` its monitor is shown innermost.
pub fn enters_show()
    ensures { EntersShow }
{}

/// A `monitorexit` leaves the monitor that is shown innermost (JVMS 2.11.10).
pub fn leaves_show()
    ensures { LeavesShow }
{}
