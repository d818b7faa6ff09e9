//! The attempt of the thread that an event is of.

ghost use Rattle.laws_refinement.specs.ElidedSteps.{OwnKeepsAttempt};

use laws_states::heap_words_fit;
use laws_threads::effects_are_allowed;

/// Where the lock word of its section is as an attempt noted it, what is due of the attempt leads
/// from its entry to where its thread is now, whether an event of the thread begins the attempt,
/// goes on with it or ends it (PLDI 2010 publication, of read-only sections without their lock).
pub fn own_keeps_attempt()
    ensures { OwnKeepsAttempt }
{
    heap_words_fit();
    effects_are_allowed();
}
