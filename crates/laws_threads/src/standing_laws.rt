//! Where the frames of a marked program stand: each function only states a law.

ghost use Rattle.laws_threads.specs.StandingLaws.{FramesHaveTops, OneStanding, TopsStand};

/// A frame stands at one instruction, with one list of tags and of types.
pub fn one_standing()
    ensures { OneStanding }
{}

/// The top frame stands at the instruction that is found by its pc.
pub fn tops_stand()
    ensures { TopsStand }
{}

/// Where there is a frame there is an instruction at its pc.
pub fn frames_have_tops()
    ensures { FramesHaveTops }
{}
