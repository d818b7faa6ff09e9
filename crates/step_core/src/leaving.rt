//! The exit of a monitor (JVMS 2.11.10).

ghost use Rattle.std.specs.Prelude.{◌≡◌, ◌≤◌};
ghost use Rattle.std.specs.List.{AllByRecursion};
ghost use Rattle.jvm_types.specs.declared.limits.TheConstants.{MOST_WORKERS};
ghost use Rattle.machine_types.specs.Bounds.{KeptFits};
ghost use Rattle.machine_types.specs.Monitors.{claim, leave_moves, leave_wants};
ghost use Rattle.step_core.specs.Claims.{CanLeave};

use crate::attempts::leave_attempt;
use checked_program::Checked;
use fat_monitor::{ask_last_exit, exit_last, exit_once};
use frames::ThreadState;
use machine_types::{Access, After};

/// The exit of a monitor, by the word that its access found, where it had one.
pub fn leave(s: &mut ThreadState, p: &Checked, monitor: u32, after: After, found: u64)
    requires program { p.now ≡ s.old.program }
    requires number { s.old.number ≤ MOST_WORKERS }
    requires can { CanLeave p.now s.old after }
    ensures { s.new ≡ leave_moves p.now.program s.old monitor after (claim s.old monitor) found }
{
    if let Some(held) = s.held(monitor) {
        if held.depth > 1 {
            exit_once(s, p, monitor, held, after);
        } else {
            exit_last(s, p, monitor, after, found);
        }
        return;
    }
    if let Some(a) = s.attempt() {
        if a.monitor == monitor {
            leave_attempt(s, p, after, found);
        }
    }
}

/// The access of an exit: none but for the last exit of a monitor that the thread holds, or the end
/// of its attempt.
pub fn leave_wants(s: &ThreadState, monitor: u32) -> Option<Access>
    requires number { s.now.number ≤ MOST_WORKERS }
    requires kept { AllByRecursion (λ h. KeptFits h.kept) s.now.held }
    ensures { result ≡ leave_wants s.now monitor (claim s.now monitor) }
{
    if s.held(monitor).is_some() {
        return ask_last_exit(s, monitor);
    }
    match s.attempt() {
        Some(a) => {
            if a.monitor == monitor && a.inner == 0 {
                Some(Access::Load(monitor))
            } else {
                None
            }
        }
        None => None,
    }
}
