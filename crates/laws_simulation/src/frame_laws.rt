//! Instructions of the top frame.

ghost use Rattle.laws_simulation.specs.StepsBeside.{FrameSteps};

use laws_states::{heap_words_fit, sites_differ, sites_lie_inside};
use laws_threads::effects_are_allowed;

/// An instruction that writes no place, makes no object, and neither waits nor notifies is one step
/// of the plain machine, or none where the limit of prints is made.
pub fn frame_steps()
    ensures { FrameSteps }
{
    sites_differ();
    sites_lie_inside();
    heap_words_fit();
    effects_are_allowed();
}
