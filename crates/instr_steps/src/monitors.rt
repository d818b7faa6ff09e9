//! Instructions on monitors (JVMS 6.5), and the calls of `Object` that wait and notify.

ghost use Rattle.std.specs.Prelude.{◌≡◌, ◌<◌};
ghost use Rattle.machine_types.specs.Frames.{went_on};
ghost use Rattle.machine_types.specs.Going.{goes_on};
ghost use Rattle.machine_types.specs.HeldMonitors.{held_at};
ghost use Rattle.machine_types.specs.Instructions.{did};
ghost use Rattle.machine_types.specs.Onward.{Entering, Leaving};
ghost use Rattle.machine_types.specs.declared.phase.After.TheVariants.{Next};
ghost use Rattle.machine_types.specs.declared.effect.Effect.TheVariants.{Waits, Notifies};
ghost use Rattle.machine_types.specs.declared.effect.Effect.TheVariants.{NotifiesAll};
ghost use Rattle.instr_steps.specs.Places.{CanGo, IsTopAt, at_place};

use crate::moves::{move_on, throw};
use crate::places::CurrentInsn;
use checked_program::Checked;
use frames::{ThreadState, runs};
use jvm_types::Thrown;
use machine_types::{After, Kept, Phase, Toward};

/// The thread is to enter a monitor.
pub fn enter(s: &mut ThreadState, p: &Checked, place: &CurrentInsn, monitor: u64)
    requires program { p.now ≡ s.old.program }
    requires stands { IsTopAt p.now.program s.old.frames place.now }
    requires row { CanGo p.now.program s.old.frames place.now }
    requires reference { monitor < p.now.program.heap }
    ensures { s.new ≡ goes_on s.old
        (Entering monitor (went_on p.now.program (at_place s.old.frames place.now) 0)) }
{
    let _heap = p.heap();
    move_on(s, p, place, 0);
    s.set_turns(0);
    s.set_phase(Phase::Enter(monitor as u32, 0));
}

/// The thread is to leave a monitor.
pub fn leave(s: &mut ThreadState, p: &Checked, place: &CurrentInsn, monitor: u64)
    requires program { p.now ≡ s.old.program }
    requires stands { IsTopAt p.now.program s.old.frames place.now }
    requires row { CanGo p.now.program s.old.frames place.now }
    requires reference { monitor < p.now.program.heap }
    ensures { s.new ≡ goes_on s.old
        (Leaving monitor Next (went_on p.now.program (at_place s.old.frames place.now) 0)) }
{
    let _heap = p.heap();
    move_on(s, p, place, 0);
    s.set_phase(Phase::Leave(monitor as u32, After::Next));
}

/// A wait of a thread that holds the monitor; a flat lock is made fat first.
pub fn wait(s: &mut ThreadState, p: &Checked, place: &CurrentInsn, monitor: u64)
    requires program { p.now ≡ s.old.program }
    requires stands { IsTopAt p.now.program s.old.frames place.now }
    requires row { CanGo p.now.program s.old.frames place.now }
    requires reference { monitor < p.now.program.heap }
    ensures { s.new ≡ did p.now.program s.old (at_place s.old.frames place.now) (Waits monitor) 0 }
{
    let _heap = p.heap();
    let m = monitor as u32;
    match s.held(m) {
        None => throw(s, p, place, Thrown::IllegalMonitorStateException),
        Some(held) => {
            move_on(s, p, place, 0);
            s.set_turns(0);
            s.set_phase(match held.kept {
                Kept::Flat(_) => Phase::Grow(m, Toward::Wait),
                Kept::Fat(r) => Phase::WaitBit(m, r),
            });
        }
    }
}

/// A notify of a thread that holds the monitor. On a flat lock nobody waits.
pub fn notify(s: &mut ThreadState, p: &Checked, place: &CurrentInsn, monitor: u64)
    requires program { p.now ≡ s.old.program }
    requires stands { IsTopAt p.now.program s.old.frames place.now }
    requires row { CanGo p.now.program s.old.frames place.now }
    requires reference { monitor < p.now.program.heap }
    ensures { s.new
        ≡ did p.now.program s.old (at_place s.old.frames place.now) (Notifies monitor) 0 }
{
    let _heap = p.heap();
    let m = monitor as u32;
    match s.held(m) {
        None => throw(s, p, place, Thrown::IllegalMonitorStateException),
        Some(held) => {
            move_on(s, p, place, 0);
            match held.kept {
                Kept::Flat(_) => runs(s),
                Kept::Fat(r) => s.set_phase(Phase::NotifyLook(m, r)),
            }
        }
    }
}

/// The same for all that wait.
pub fn notify_all(s: &mut ThreadState, p: &Checked, place: &CurrentInsn, monitor: u64)
    requires program { p.now ≡ s.old.program }
    requires stands { IsTopAt p.now.program s.old.frames place.now }
    requires row { CanGo p.now.program s.old.frames place.now }
    requires reference { monitor < p.now.program.heap }
    ensures { s.new
        ≡ did p.now.program s.old (at_place s.old.frames place.now) (NotifiesAll monitor) 0 }
{
    let _heap = p.heap();
    let m = monitor as u32;
    match s.held(m) {
        None => throw(s, p, place, Thrown::IllegalMonitorStateException),
        Some(held) => {
            move_on(s, p, place, 0);
            match held.kept {
                Kept::Flat(_) => runs(s),
                Kept::Fat(r) => s.set_phase(Phase::NotifyAll(m, r)),
            }
        }
    }
}
