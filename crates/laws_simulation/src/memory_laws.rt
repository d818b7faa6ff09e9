//! Instructions that write a place, look for an element, or make an object; and a thread that goes
//! on.

ghost use Rattle.laws_simulation.specs.StepsBeside.{MemorySteps, OnwardSteps};

use laws_states::{events_keep_parts, sites_differ, sites_lie_inside};

/// An instruction that writes a field is that step of the plain machine; so is one that makes an
/// object, or finds no room for it. One that finds its element has its plain step at the event that
/// follows (JVMS 6.5 `putfield`, `putstatic`, `iaload`, `iastore`, `new`, `newarray`).
pub fn memory_steps()
    ensures { MemorySteps }
{
    sites_differ();
    sites_lie_inside();
}

/// A thread that begins its next root, reads or stores an element, or goes on with an exception
/// does so in the plain machine. Where it stores the header of a new object, the plain machine has
/// the object already (JVMS 2.10, 5.5).
pub fn onward_steps()
    ensures { OnwardSteps }
{
    sites_differ();
    sites_lie_inside();
    events_keep_parts();
}
