//! The workers of a run, each with hands of its own.

ghost use Rattle.std.specs.Prelude.{◌≡◌, ◌+◌, ◌<◌, ◌≤◌, [], length};
ghost use Rattle.std.specs.Vec.{vec_capacity};
ghost use Rattle.table_rule.specs.Views.{held_in};
ghost use Rattle.table_runner.specs.Running.{AreSame, AreWorkers, IsWorker, RestOf, RunsHere};

use crate::hands::Hands;
use crate::stepping::CoreTable;
use checked_program::Checked;
use jvm_types::Gate;
use std::thread::{Threads, for_each_mut};

/// A worker: it passes the gate, and makes the events of its thread.
fn work<G: Gate>(hands: &mut Hands, table: &CoreTable, p: &Checked, gate: &G, t: u8)
    requires worker { IsWorker table.now.table_id table.now.program
        table.now.cfg t hands.old }
    requires program { p.now ≡ table.now.program }
    ensures same { AreSame hands.old hands.new }
{
    gate.pass(t);
    hands.run(table, p, t);
}

/// Each worker on a thread of its own.
fn run_each<R: Threads + Sync, G: Gate + Sync>(
    rt: &R,
    gate: &G,
    table: &CoreTable,
    p: &Checked,
    hands: &mut [Hands],
)
    requires few { length hands.old ≤ 8 }
    requires workers { AreWorkers table.now.table_id table.now.program
        table.now.cfg hands.old }
    requires program { p.now ≡ table.now.program }
    ensures workers { AreWorkers table.now.table_id table.now.program
        table.now.cfg hands.new }
    ensures count { length hands.new ≡ length hands.old }
{
    let count = hands.len();
    if count == 0 {
        return;
    }
    for_each_mut(
        rt,
        hands,
        count,
        &|i: usize, h: &mut Hands|
            requires { (i < 8) × IsWorker table.now.table_id
                table.now.program table.now.cfg (i + 1) h.now
                × (p.now ≡ table.now.program) }
            ensures { AreSame h.entry.now h.exit.now }
        { work(h, table, p, gate, (i + 1) as u8) },
    );
}

/// Hands for each worker, for whom there is room.
fn split_workers(
    table: &CoreTable,
    hands: &mut Hands,
    p: &Checked,
    mut workers: Vec<Hands>,
) -> Vec<Hands>
    requires program { p.now ≡ table.now.program }
    requires here { RunsHere table.now.table_id table.now.program
        table.now.cfg hands.old }
    requires none { workers.items ≡ [] }
    requires room { 8 ≤ vec_capacity workers }
    ensures workers { AreWorkers table.now.table_id table.now.program table.now.cfg result.items
        × (length result.items ≡ p.now.program.workers) }
    ensures rest { RestOf table.now.table_id table.now.program table.now.cfg
        (p.now.program.workers + 1) (held_in hands.old.threads 0) hands.new }
    ensures few { length result.items ≤ 8 }
{
    let count = p.workers();
    for i in 0..count {
        workers.push_reserved(hands.split(table, i + 1));
    }
    workers
}

/// Takes in the hands of all workers.
fn join_workers(table: &CoreTable, hands: &mut Hands, mut workers: Vec<Hands>)
    requires workers { AreWorkers table.now.table_id table.now.program
        table.now.cfg workers.items }
    requires rest { RestOf table.now.table_id table.now.program
        table.now.cfg (length workers.items + 1) (held_in hands.old.threads 0)
        hands.old }
    ensures { RestOf table.now.table_id table.now.program
        table.now.cfg 1 (held_in hands.old.threads 0) hands.new }
{
    while let Some(worker) = workers.pop() {
        hands.join(table, worker);
    }
}

/// The events of the workers, each on a thread of its own, for whose hands there is room. Thread 0
/// stays as it is.
pub(crate) fn run_apart<R: Threads + Sync, G: Gate + Sync>(
    rt: &R,
    gate: &G,
    table: &CoreTable,
    hands: &mut Hands,
    p: &Checked,
    workers: Vec<Hands>,
)
    requires program { p.now ≡ table.now.program }
    requires here { RunsHere table.now.table_id table.now.program
        table.now.cfg hands.old }
    requires none { workers.items ≡ [] }
    requires room { 8 ≤ vec_capacity workers }
    ensures { RestOf table.now.table_id table.now.program table.now.cfg 1
        (held_in hands.old.threads 0) hands.new }
{
    let mut workers = split_workers(table, hands, p, workers);
    run_each(rt, gate, table, p, workers.as_mut_slice());
    join_workers(table, hands, workers);
}
