//! The law of what constants name: the function only states it.

ghost use Rattle.laws_programs.specs.TargetLaws.{TargetsHaveRows};

/// What a target that fits its instruction names is there, and the row of the instruction is the
/// one of that.
#[tactic(auto, using(crate::proofs::TargetRows::targets_rows))]
pub fn targets_have_rows()
    ensures { TargetsHaveRows }
{}
