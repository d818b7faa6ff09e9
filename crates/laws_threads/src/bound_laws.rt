//! The numbers of a thread.

ghost use Rattle.laws_threads.specs.BoundLaws.{BoundsAreKept};

/// An event keeps the numbers of a thread within their bounds.
#[tactic(auto, using(crate::proofs::KeptBounds::bounds_kept))]
pub fn bounds_are_kept()
    ensures { BoundsAreKept }
{}
