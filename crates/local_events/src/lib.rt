//! Events of one thread, one after the other, none of which wants an access to the words that
//! threads share.
#![tactic(auto)]

ghost use Rattle.local_events.specs.Locals.{FollowsItself, FollowsOn};

/// A thread follows itself, and still follows behind one more event that wants no access.
#[tactic(auto, using(crate::proofs::LocalLaws::follows_itself, crate::proofs::LocalLaws::follows_on))]
pub fn locals_follow()
    ensures itself { FollowsItself }
    ensures on { FollowsOn }
{}
