//! Laws of frames whose values have the types of verification (JVMS 4.10.2.2): each function only
//! states one.

ghost use Rattle.laws_threads.specs.TopFrames.{EffectsAreAllowed, FramesStand, GoingFits};
ghost use Rattle.laws_threads.specs.TopFrames.{HandlersFit, MadeStand, ReturnsFit, ThrownStand};

/// The top frame stands at an instruction of its method, has what that takes, and has room for what
/// it gives.
pub fn frames_stand()
    ensures { FramesStand }
{}

/// Where it throws, the top frame stands at an instruction too.
pub fn thrown_stand()
    ensures { ThrownStand }
{}

/// Where it waits for a new object, it stands at an instruction and has room for the reference.
pub fn made_stand()
    ensures { MadeStand }
{}

/// The effect of the instruction is never `Stuck`, and what it names is there.
pub fn effects_are_allowed()
    ensures { EffectsAreAllowed }
{}

/// With whatever value it goes on, the frame stays within the limits of its method.
pub fn going_fits()
    ensures { GoingFits }
{}

/// The caller has room for what a return gives it, and an instruction follows its call.
pub fn returns_fit()
    ensures { ReturnsFit }
{}

/// A handler that catches has room for the exception, and an instruction begins there (JVMS 2.10).
pub fn handlers_fit()
    ensures { HandlersFit }
{}
