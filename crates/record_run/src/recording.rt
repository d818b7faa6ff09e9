//! A run under one lock that keeps its order.

ghost use Rattle.std.specs.Prelude.{◌≡◌, ◌≤◌, [], Some, IfOk};
ghost use Rattle.machine_types.specs.Settings.{AreSettings};
ghost use Rattle.record_run.specs.Kept.{HaveBegun, IsRecordOf};
ghost use Rattle.record_run.specs.Recordings.{IsRecorded};
ghost use Rattle.record_run.specs.declared.recording.TheConstants.{MOST_EVENTS};

use crate::kept::{Naming, Recording};
use checked_program::Checked;
use jvm_types::{Bytes, Gate, Outcome, Room};
use machine_types::Config;
use replay_runner::{Machine, run_workers};
use std::alloc::{AllocError, Global};
use std::marker::Brand;
use std::sync::Wait;
use std::thread::Threads;

/// How many events a run can keep at most.
pub const MOST_EVENTS: u32 = 100_000;

/// What a recorded run came to, and the workers whose events were kept, each by its number, in the
/// order of these events.
#[derive(Debug, Drop)]
pub struct Recorded {
    pub outcome: Outcome,
    pub order: Bytes,
}

/// Runs a machine whose workers begin to its end, as the run that `J` names.
fn record_named<J: Naming + Send + Sync, R: Threads + Wait + Sync, G: Gate + Sync>(
    rt: &R,
    gate: &G,
    machine: Machine,
    order: Room<u8>,
    p: &Checked,
    most: u32,
) -> Recorded
    requires named { J.run
        ≡ Some (record { program = machine.program; cfg = machine.cfg; most = most }) }
    requires begun { HaveBegun machine.program machine.cfg machine.core }
    requires program { p.now ≡ machine.program }
    requires none { order.items ≡ [] }
    requires room { most ≤ order.spare }
    ensures { IsRecordOf J.run result }
{
    let count = machine.workers();
    let recording = Recording::<J>::of(machine, order, most);
    let recording = run_workers(rt, gate, recording, p, count);
    recording.finish(p)
}

/// Runs a program to its end as `replay_runner::run_locked` does, and keeps the order of the
/// workers' events, the first `events` of them: `init` on the caller's thread, then the workers,
/// each on a thread of its own, of which each event holds the one lock for itself, then `done`.
/// Worker `t` calls `gate.pass(t)` once, before its first event and while it holds no lock.
///
/// The order is one that `replay_runner::replay` takes, and a replay by it comes to this outcome
/// (`recorded_orders_replay`). Each number in it is that of a worker that was live as its turn
/// came, and it is shorter than `events` only where it has all events of the workers. What comes
/// behind the last event that is kept goes round by round, as in a replay. Which order it is
/// depends on the system, and nothing is promised of it, as for `run_locked`. It answers
/// `AllocError` where memory is wanted, which is taken at the start alone. It may wait for the
/// lock.
pub fn run_recorded<R: Threads + Wait + Sync, G: Gate + Sync>(
    rt: &R,
    alloc: Global,
    gate: &G,
    p: &Checked,
    cfg: &Config,
    events: u32,
) -> Result<Recorded, AllocError>
    requires settings { AreSettings cfg.now }
    requires some { 1 ≤ events }
    requires few { events ≤ MOST_EVENTS }
    ensures { IfOk result (λ r. IsRecorded p.now cfg.now events r.order r.outcome) }
{
    let mut machine = Machine::start(alloc, p, cfg)?;
    let order = Room::with_room(alloc, events as usize)?;
    machine.run_alone(p, 0);
    if !machine.next(p) {
        return Ok(Recorded {
            outcome: machine.outcome(),
            order: order.into_rows(),
        });
    }
    Ok(record_named::<Brand, R, G>(rt, gate, machine, order, p, events))
}
