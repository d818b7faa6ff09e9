//! Laws of checked programs, on which what runs one rests: each function only states one.

ghost use Rattle.checked_program.specs.CheckedLaws.{CalledFit, CallsSuit, CatchersAreAmong};
ghost use Rattle.checked_program.specs.CheckedLaws.{CheckedIsSound, FramesHavePlaces};
ghost use Rattle.checked_program.specs.CheckedLaws.{CheckedPlacesHold, ReachIsOne};

/// Each method has its typing, under which each instruction is sound.
#[tactic(auto, using(crate::proofs::CheckedPlaces::checked_sound))]
pub fn checked_is_sound()
    ensures { CheckedIsSound }
{}

/// Receiver and arguments of each method fit in its locals.
#[tactic(auto, using(crate::proofs::CheckedPlaces::called_fit_all))]
pub fn called_fit()
    ensures { CalledFit }
{}

/// Where there is a frame there is an instruction with its target.
#[tactic(auto, using(crate::proofs::CheckedPlaces::have_places))]
pub fn frames_have_places()
    ensures { FramesHavePlaces }
{}

/// At each instruction with a frame the target fits, no rule is broken, each edge fits, and the
/// frame is within its bounds.
pub fn places_hold()
    ensures { CheckedPlacesHold }
{}

/// At a call the values on top are what the called method takes.
pub fn calls_suit()
    ensures { CallsSuit }
{}

/// The row that catches an exception is one of those up to the first that catches all (JVMS 2.10).
#[tactic(auto, using(crate::proofs::CheckedPlaces::catchers_among))]
pub fn catchers_are_among()
    ensures { CatchersAreAmong }
{}

/// What a method reaches is one number.
pub fn reach_is_one()
    ensures { ReachIsOne }
{}
