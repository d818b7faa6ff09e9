//! What an event in which a thread takes a lock, leaves a monitor, or makes a lock fat is to the
//! plain machine.

ghost use Rattle.laws_simulation.specs.StepsBeside.{LockSteps};

use laws_states::{sites_differ, sites_lie_inside};
use machine_types::start_lies_apart;

/// A thread that is in no attempt enters a monitor as the plain machine does, when it takes the
/// lock or has it already, and leaves it so when it releases the lock or an inner entry; until
/// then, and where it makes a lock fat, the plain machine makes no step (JVMS 2.11.10, JLS 17.1).
pub fn lock_steps()
    ensures { LockSteps }
{
    start_lies_apart();
    sites_differ();
    sites_lie_inside();
}
