//! Waiting and notifying.

ghost use Rattle.laws_simulation.specs.StepsBeside.{WaitPhaseSteps, WaitingSteps};

use laws_states::sites_lie_inside;

/// A call of `wait`, `notify` or `notifyAll` is one instruction of the plain machine; on a flat
/// lock nobody waits, so a notification is done with it (JLS 17.2 in the edition of its time).
pub fn waiting_steps()
    ensures { WaitingSteps }
{}

/// A thread that waits, is woken, or takes its monitor back stands for one that does so in the
/// plain machine, and a notification wakes the same threads (JLS 17.2 in the edition of its time).
pub fn wait_phase_steps()
    ensures { WaitPhaseSteps }
{
    sites_lie_inside();
}
