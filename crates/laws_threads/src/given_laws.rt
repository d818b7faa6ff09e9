//! What a thread was given.

ghost use Rattle.laws_threads.specs.GivenThread.{GivenIsKept};

/// An event leaves a thread its program, its settings, its number and its part.
#[tactic(auto, using(crate::proofs::SameThread::same_given))]
pub fn given_is_kept()
    ensures { GivenIsKept }
{}
