//! The whole of a run by few workers.

ghost use Rattle.std.specs.Prelude.{◌≡◌, ◌<◌, ◌≤◌, [], IfOk};
ghost use Rattle.std.specs.Vec.{vec_capacity};
ghost use Rattle.machine_types.specs.Settings.{AreSettings};
ghost use Rattle.run_parts.specs.Ended.{IsEndOfRun};
ghost use Rattle.table_runner.specs.Running.{AtStart, HaveEnded, RunsHere};
ghost use Rattle.green_runner.specs.Turns.{IsRunInTurns};

use crate::shares::run_apart;
use crate::turns::run_in_turns;
use checked_program::Checked;
use jvm_types::limits::MOST_WORKERS;
use jvm_types::{Gate, Outcome};
use laws_refinement::schedules_end_over;
use machine_types::Config;
use std::alloc::{AllocError, Global};
use std::thread::Threads;
use table_runner::{CoreTable, Hands, end_run, run_init, run_rest, table};

/// The parts of a run on a table: no memory is wanted any more.
fn run_to_end<R: Threads + Sync, G: Gate + Sync>(
    rt: &R,
    gate: &G,
    table: &CoreTable,
    hands: &mut Hands,
    p: &Checked,
    shares: Vec<Hands>,
    workers: u8,
    turn: u32,
)
    requires some { (0 < workers) × (0 < turn) }
    requires program { p.now ≡ table.now.program }
    requires start { AtStart table.now.table_id table.now.program
        table.now.cfg hands.old }
    requires none { shares.items ≡ [] }
    requires room { 8 ≤ vec_capacity shares }
    ensures here { RunsHere table.now.table_id table.now.program table.now.cfg hands.new }
    ensures ended { HaveEnded hands.new.threads }
{
    if run_init(table, hands, p) {
        run_apart(rt, gate, table, hands, p, shares, workers, turn);
        run_rest(table, hands, p);
    }
}

/// A run whose workers have shares of the threads, on a table.
fn run_shared<R: Threads + Sync, G: Gate + Sync>(
    rt: &R,
    alloc: Global,
    gate: &G,
    p: &Checked,
    cfg: &Config,
    workers: u8,
    turn: u32,
) -> Result<Outcome, AllocError>
    requires settings { AreSettings cfg.now }
    requires some { (0 < workers) × (0 < turn) }
    ensures { IfOk result (IsEndOfRun p.now cfg.now) }
{
    let (table, mut hands) = table(alloc, p, cfg)?;
    let shares = Vec::with_capacity(alloc, MOST_WORKERS as usize)?;
    run_to_end(rt, gate, &table, &mut hands, p, shares, workers, turn);
    Ok(end_run(hands, table))
}

/// Runs a program to its end, its threads on so many workers, each of which gives the threads that
/// it has turns of `turn` events, in order of numbers, over and over. `init` and `done` run on the
/// caller's thread. Its error is want of memory, all of which is taken before the first event.
///
/// With one worker that is the caller's thread, and the outcome is that of the events in just these
/// turns. With two or more of them, each on a thread of its own, it is the outcome of a state that
/// some run reaches, in which no thread is live and no part may begin; nothing is promised of the
/// order, nor of how many workers there are beside each other. Worker `k`, from 1, calls
/// `gate.pass(k)` once, before its first event; where there are more workers than threads the rest
/// have no part in it. One worker alone passes no gate.
pub fn run_green<R: Threads + Sync, G: Gate + Sync>(
    rt: &R,
    alloc: Global,
    gate: &G,
    p: &Checked,
    cfg: &Config,
    workers: u8,
    turn: u32,
) -> Result<Outcome, AllocError>
    requires settings { AreSettings cfg.now }
    requires workers { 0 < workers }
    requires turn { 0 < turn }
    ensures end { IfOk result (IsEndOfRun p.now cfg.now) }
    ensures turns { workers ≡ 1 → IfOk result (IsRunInTurns p.now cfg.now turn) }
{
    schedules_end_over();
    if workers == 1 {
        run_in_turns(alloc, p, cfg, turn)
    } else {
        run_shared(rt, alloc, gate, p, cfg, workers, turn)
    }
}
