//! Laws of the edges of a method: each function only states one.

ghost use Rattle.laws_programs.specs.EdgeLaws.{EdgesLand, FramesAreFound, FramesAreNumbered};

/// An edge that fits leads to an instruction with a frame that the one that is brought is at or
/// below.
#[tactic(auto, using(crate::proofs::EdgeTargets::lands))]
pub fn edges_land()
    ensures { EdgesLand }
{}

/// The frame at the pc of an instruction is that of its number.
#[tactic(auto, using(crate::proofs::EdgeTargets::stand))]
pub fn frames_stand()
    ensures { FramesAreNumbered }
{}

/// The frame at a pc is that of an instruction there.
#[tactic(auto, using(crate::proofs::EdgeTargets::found))]
pub fn frames_are_found()
    ensures { FramesAreFound }
{}
