//! A run under one lock.

ghost use Rattle.std.specs.Prelude.{◌≡◌, Some, IfOk};
ghost use Rattle.machine_types.specs.Core.{start};
ghost use Rattle.machine_types.specs.Settings.{AreSettings};
ghost use Rattle.run_parts.specs.Ended.{IsEndOfRun};
ghost use Rattle.replay_runner.specs.Locked.{IsEndOf, Named};

use crate::ending::finish;
use crate::locked::{Locked, Naming};
use crate::running::Machine;
use crate::workers::run_workers;
use checked_program::Checked;
use jvm_types::{Gate, Outcome};
use machine_types::Config;
use std::alloc::{AllocError, Global};
use std::marker::Brand;
use std::sync::Wait;
use std::thread::Threads;

/// Runs a machine at its start to the end, as the run that `J` names.
fn run_named<J: Naming + Send + Sync, R: Threads + Wait + Sync, G: Gate + Sync>(
    rt: &R,
    gate: &G,
    machine: Machine,
    p: &Checked,
) -> Outcome
    requires named { J.run ≡ Some (record { program = machine.program; cfg = machine.cfg }) }
    requires start { machine.core ≡ start machine.program machine.cfg }
    requires program { p.now ≡ machine.program }
    ensures { IsEndOf J.run result }
{
    let mut locked = Locked::<J>::of(machine);
    locked.run_alone(p, 0);
    if locked.next(p) {
        let count = locked.workers();
        locked = run_workers(rt, gate, locked, p, count);
    }
    finish(&mut locked, p);
    locked.outcome()
}

/// Runs a program to its end, each worker on a thread of its own, and the machine under one lock:
/// `init` on the caller's thread, then the workers, of which each event holds the lock for itself,
/// then `done`. Worker `t` calls `gate.pass(t)` once, before its first event and while it holds no
/// lock.
///
/// What it answers is the outcome of a state that some list of events reaches, and behind which
/// nothing comes. Which list that is depends on the system, and nothing is promised of it: neither
/// that each worker has its turn, nor how long one waits, nor that workers run beside each other,
/// since they run one after another where the system gives no thread. It answers `AllocError` where
/// memory is wanted, which is taken at the start alone. It may wait for the lock.
pub fn run_locked<R: Threads + Wait + Sync, G: Gate + Sync>(
    rt: &R,
    alloc: Global,
    gate: &G,
    p: &Checked,
    cfg: &Config,
) -> Result<Outcome, AllocError>
    requires { AreSettings cfg.now }
    ensures { IfOk result (IsEndOfRun p.now cfg.now) }
{
    let machine = Machine::start(alloc, p, cfg)?;
    Ok(run_named::<Brand, R, G>(rt, gate, machine, p))
}
