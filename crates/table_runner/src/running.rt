//! The whole of a run on a table.

ghost use Rattle.std.specs.Prelude.{◌≡◌, ◌≤◌, ◌+◌, [], IfOk, true, false};
ghost use Rattle.std.specs.Vec.{vec_capacity};
ghost use Rattle.machine_types.specs.Core.{is_live_thread};
ghost use Rattle.machine_types.specs.Settings.{AreSettings};
ghost use Rattle.run_parts.specs.Ended.{IsEndOfRun};
ghost use Rattle.table_rule.specs.Views.{held_in};
ghost use Rattle.table_runner.specs.Ending.{IsOutcome};
ghost use Rattle.table_runner.specs.Running.{AreDeadBelow, AtStart, HasRunFirst, HaveEnded};
ghost use Rattle.table_runner.specs.Running.{IsAlone, IsRunOn, IsWaiting};
ghost use Rattle.table_runner.specs.Running.{NoWorkerLivesIn, RunsHere};

use crate::hands::Hands;
use crate::opening::table;
use crate::stepping::CoreTable;
use crate::workers::run_apart;
use checked_program::Checked;
use jvm_types::limits::MOST_WORKERS;
use jvm_types::{Gate, Outcome};
use machine_types::Config;
use std::alloc::{AllocError, Global};
use std::thread::Threads;

/// The events of thread `t` on this thread of the system, until it is not live.
fn run_here(hands: &mut Hands, table: &CoreTable, p: &Checked, t: u8)
    requires here { RunsHere table.now.table_id table.now.program
        table.now.cfg hands.old }
    requires number { t ≤ p.now.program.workers }
    requires program { p.now ≡ table.now.program }
    ensures here { RunsHere table.now.table_id table.now.program
        table.now.cfg hands.new }
    ensures on { IsRunOn t hands.old hands.new }
    ensures over { is_live_thread (held_in hands.new.threads t) ≡ false }
{
    hands.run(table, p, t);
}

/// The events that the workers have left. There are none: each has made all of its own, which the
/// hands that it gave back do not tell.
fn run_left(hands: &mut Hands, table: &CoreTable, p: &Checked)
    requires program { p.now ≡ table.now.program }
    requires here { RunsHere table.now.table_id table.now.program
        table.now.cfg hands.old }
    ensures here { RunsHere table.now.table_id table.now.program
        table.now.cfg hands.new }
    ensures first { held_in hands.new.threads 0 ≡ held_in hands.old.threads 0 }
    ensures over { AreDeadBelow (p.now.program.workers + 1) hands.new.threads }
{
    let count = p.workers();
    for i in 0..count {
        run_here(hands, table, p, i + 1);
    }
}

/// The end of the workers' part: what they have left is made.
fn end_workers(table: &CoreTable, hands: &mut Hands, p: &Checked)
    requires program { p.now ≡ table.now.program }
    requires here { RunsHere table.now.table_id table.now.program
        table.now.cfg hands.old }
    requires waiting { IsWaiting hands.old.threads }
    ensures here { RunsHere table.now.table_id table.now.program
        table.now.cfg hands.new }
    ensures over { IsWaiting hands.new.threads × NoWorkerLivesIn hands.new.threads }
{
    run_left(hands, table, p);
    hands.hold_no_more();
}

/// `done`, where it may begin.
fn run_done(table: &CoreTable, hands: &mut Hands, p: &Checked)
    requires program { p.now ≡ table.now.program }
    requires here { RunsHere table.now.table_id table.now.program
        table.now.cfg hands.old }
    requires waiting { IsWaiting hands.old.threads × NoWorkerLivesIn hands.old.threads }
    ensures here { RunsHere table.now.table_id table.now.program
        table.now.cfg hands.new }
    ensures ended { HaveEnded hands.new.threads }
{
    if hands.next(table, p) {
        run_here(hands, table, p, 0);
    }
}

/// `init`, and the begin of the workers' part: whether it began.
fn begin_workers(table: &CoreTable, hands: &mut Hands, p: &Checked) -> bool
    requires program { p.now ≡ table.now.program }
    requires here { RunsHere table.now.table_id table.now.program
        table.now.cfg hands.old }
    requires alone { IsAlone 0 hands.old.threads }
    ensures here { RunsHere table.now.table_id table.now.program
        table.now.cfg hands.new }
    ensures first { HasRunFirst hands.old hands.new result }
    ensures waiting { result ≡ true → IsWaiting hands.new.threads }
    ensures ended { result ≡ false → HaveEnded hands.new.threads }
{
    run_here(hands, table, p, 0);
    hands.next(table, p)
}

/// Runs `init` of a run at its start, and begins the workers' part: `false` where that may not
/// begin, and then the run has ended.
pub fn run_init(table: &CoreTable, hands: &mut Hands, p: &Checked) -> bool
    requires program { p.now ≡ table.now.program }
    requires start { AtStart table.now.table_id table.now.program
        table.now.cfg hands.old }
    ensures here { RunsHere table.now.table_id table.now.program
        table.now.cfg hands.new }
    ensures first { HasRunFirst hands.old hands.new result }
    ensures waiting { result ≡ true → IsWaiting hands.new.threads }
    ensures ended { result ≡ false → HaveEnded hands.new.threads }
{
    begin_workers(table, hands, p)
}

/// Runs what the workers have left of their part, and `done` where it may begin: then the run has
/// ended.
pub fn run_rest(table: &CoreTable, hands: &mut Hands, p: &Checked)
    requires program { p.now ≡ table.now.program }
    requires here { RunsHere table.now.table_id table.now.program
        table.now.cfg hands.old }
    requires waiting { IsWaiting hands.old.threads }
    ensures here { RunsHere table.now.table_id table.now.program
        table.now.cfg hands.new }
    ensures ended { HaveEnded hands.new.threads }
{
    end_workers(table, hands, p);
    run_done(table, hands, p);
}

/// The outcome of a run that has ended: of these threads.
pub fn end_run(hands: Hands, table: CoreTable) -> Outcome
    requires here { RunsHere table.table_id table.program
        table.cfg hands }
    requires ended { HaveEnded hands.threads }
    ensures end { IsEndOfRun hands.program hands.cfg result }
    ensures outcome { IsOutcome hands result }
{
    hands.close(table)
}

/// The workers' part, each worker on a thread of its own.
fn run_workers<R: Threads + Sync, G: Gate + Sync>(
    rt: &R,
    gate: &G,
    table: &CoreTable,
    hands: &mut Hands,
    p: &Checked,
    workers: Vec<Hands>,
)
    requires program { p.now ≡ table.now.program }
    requires here { RunsHere table.now.table_id table.now.program
        table.now.cfg hands.old }
    requires waiting { IsWaiting hands.old.threads }
    requires none { workers.items ≡ [] }
    requires room { 8 ≤ vec_capacity workers }
    ensures here { RunsHere table.now.table_id table.now.program table.now.cfg hands.new }
    ensures waiting { IsWaiting hands.new.threads }
{
    run_apart(rt, gate, table, hands, p, workers);
}

/// The parts of a run, from its start to its end: no memory is wanted any more.
fn run_to_end<R: Threads + Sync, G: Gate + Sync>(
    rt: &R,
    gate: &G,
    table: &CoreTable,
    hands: &mut Hands,
    p: &Checked,
    workers: Vec<Hands>,
)
    requires program { p.now ≡ table.now.program }
    requires start { AtStart table.now.table_id table.now.program
        table.now.cfg hands.old }
    requires none { workers.items ≡ [] }
    requires room { 8 ≤ vec_capacity workers }
    ensures here { RunsHere table.now.table_id table.now.program table.now.cfg hands.new }
    ensures ended { HaveEnded hands.new.threads }
{
    if run_init(table, hands, p) {
        run_workers(rt, gate, table, hands, p, workers);
        run_rest(table, hands, p);
    }
}

/// Runs a program to its end, its workers on threads of their own, over words that they share
/// without a lock: the outcome of a state of some run, in which no thread is live and no part may
/// begin. Its error is want of memory, all of which is taken before the first event.
///
/// Worker `t` calls `gate.pass(t)` once, before its first event. `init` and `done` run on the
/// caller's thread. Nothing is promised of the order, nor that workers run beside each other: where
/// the system gives no thread, they run one after another.
pub fn run_table<R: Threads + Sync, G: Gate + Sync>(
    rt: &R,
    alloc: Global,
    gate: &G,
    p: &Checked,
    cfg: &Config,
) -> Result<Outcome, AllocError>
    requires { AreSettings cfg.now }
    ensures { IfOk result (IsEndOfRun p.now cfg.now) }
{
    let (table, mut hands) = table(alloc, p, cfg)?;
    let workers = Vec::with_capacity(alloc, MOST_WORKERS as usize)?;
    run_to_end(rt, gate, &table, &mut hands, p, workers);
    Ok(end_run(hands, table))
}
