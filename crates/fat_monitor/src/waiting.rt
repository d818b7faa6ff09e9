//! How a thread waits on a fat lock and takes it back, and whom it notifies.

ghost use Rattle.std.specs.Prelude.{◌≡◌, ◌≤◌, if◌then◌else◌, ◌==◌};
ghost use Rattle.jvm_types.specs.Numbers.{has_flag};
ghost use Rattle.jvm_types.specs.declared.limits.TheConstants.{MOST_WORKERS};
ghost use Rattle.machine_types.specs.Going.{failed_turn, runs, with_phase};
ghost use Rattle.machine_types.specs.HeldMonitors.{held_at};
ghost use Rattle.machine_types.specs.Monitors.{bit_of, goes_to_wait, lowest_of, retakes};
ghost use Rattle.machine_types.specs.declared.phase.Phase.TheVariants.{NotifyOne, Retake, WaitLook};
ghost use Rattle.fat_monitor.specs.Answering.{HasPlaceFor, HasTurn};

use crate::bits::{has_bit, lowest_of};
use frames::{ThreadState, fail_turn, runs};
use machine_types::{Held, Kept, Phase};

/// The monitor is given up, and the depth at which it was held is kept in mind.
pub fn give_up(s: &mut ThreadState, monitor: u32, number: u32)
    ensures { s.new ≡ goes_to_wait s.old monitor number (held_at s.old.held monitor) }
{
    if let Some(h) = s.held(monitor) {
        s.drop_held(monitor);
        s.set_phase(Phase::WaitLook(monitor, number, h.depth));
    }
}

/// By the waiting bits: where its own is still set, that was a failed turn.
pub fn look(s: &mut ThreadState, monitor: u32, number: u32, depth: u64, bits: u64)
    requires number { s.old.number ≤ MOST_WORKERS }
    requires turn { HasTurn s.old }
    ensures { s.new ≡ (if has_flag (bit_of s.old.number) bits then failed_turn s.old
        (WaitLook monitor number depth) else with_phase s.old
        (Retake monitor number depth)) }
{
    if has_bit(s.number(), bits) {
        fail_turn(s, Phase::WaitLook(monitor, number, depth));
    } else {
        s.set_phase(Phase::Retake(monitor, number, depth));
    }
}

/// Takes the monitor back at the depth that was given up, where its record had no owner.
pub fn retake(s: &mut ThreadState, monitor: u32, number: u32, depth: u64, owner: u64)
    requires turn { HasTurn s.old }
    requires place { HasPlaceFor s.old monitor }
    ensures { s.new ≡ (if owner == 0 then retakes s.old monitor number depth else failed_turn s.old
        (Retake monitor number depth)) }
{
    if owner == 0 {
        s.put_held(Held {
            monitor,
            kept: Kept::Fat(number),
            depth,
        });
        runs(s);
    } else {
        fail_turn(s, Phase::Retake(monitor, number, depth));
    }
}

/// The lowest of the threads that wait is notified, where one does.
pub fn choose(s: &mut ThreadState, monitor: u32, number: u32, bits: u64)
    ensures { s.new ≡ (if bits == 0 then runs s.old else with_phase s.old
        (NotifyOne monitor number (lowest_of bits))) }
{
    if bits == 0 {
        runs(s);
    } else {
        s.set_phase(Phase::NotifyOne(monitor, number, lowest_of(bits)));
    }
}
