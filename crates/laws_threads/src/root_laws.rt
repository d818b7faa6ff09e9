//! The methods that a thread has still to run.

ghost use Rattle.laws_threads.specs.RootLaws.{RootsAreKept};

/// An event leaves a thread roots of its part, and a frame in every phase that needs one.
#[tactic(auto, using(crate::proofs::KeptRoots::roots_kept))]
pub fn roots_are_kept()
    ensures { RootsAreKept }
{}
