//! The attempts of the other threads.

ghost use Rattle.laws_refinement.specs.ElidedSteps.{OthersKeepAttempts};

use laws_sections::owned_is_decided;
use laws_states::{events_reach_sites, sites_differ, sites_lie_inside};
use laws_threads::{elements_inside, inside_may_do};

/// What is due of an attempt leads from its entry to where its thread is also after an event of
/// another thread. Where the lock word is as the attempt noted it, it was so before, and then the
/// event has changed no place that the attempt may read: a guarded place changes under the monitor
/// of its object or class, which nobody held, or as that is made, an element of an array as a
/// guarded place of the object that owns it, and a frozen place as it is made.
/// No thread is in an attempt as a class is made, but the one that makes it.
pub fn others_keep_attempts()
    ensures { OthersKeepAttempts }
{
    inside_may_do();
    elements_inside();
    owned_is_decided();
    sites_differ();
    sites_lie_inside();
    events_reach_sites();
}
