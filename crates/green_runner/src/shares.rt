//! The workers of a run, each with a share of its threads.

ghost use Rattle.std.specs.Prelude.{◌≡◌, ◌≤◌, ◌<◌, ◌+◌, ◌||◌, ℕ, [], length, slice_index_or};
ghost use Rattle.std.specs.Prelude.{IsSome, min};
ghost use Rattle.std.specs.Vec.{vec_capacity};
ghost use Rattle.std.specs.List.{All, list_any};
ghost use Rattle.table_rule.specs.Views.{HoldsAll, held_in};
ghost use Rattle.table_runner.specs.Handed.{Handed, IsTableOf};
ghost use Rattle.table_runner.specs.Running.{AreSame, IsWaiting, RestOf, RunsHere};
ghost use Rattle.green_runner.specs.Shares.{AreShared, AreTogether, holds};

use crate::passing::pass;
use checked_program::Checked;
use jvm_types::Gate;
use std::thread::{Threads, for_each_mut};
use table_runner::{CoreTable, Hands};

/// A worker: it passes the gate, and then over its threads, until none of them is live.
fn work<G: Gate>(hands: &mut Hands, table: &CoreTable, p: &Checked, gate: &G, number: u8, turn: u32)
    requires table { IsTableOf table.now.table_id table.now.program
        table.now.cfg hands.old }
    requires program { p.now ≡ table.now.program }
    requires some { 0 < turn }
    ensures { AreSame hands.old hands.new }
{
    gate.pass(number);
    for _ in 0..u64::MAX {
        if !pass(hands, table, p, turn) {
            return;
        }
    }
}

/// Each worker on a thread of its own.
fn run_each<R: Threads + Sync, G: Gate + Sync>(
    rt: &R,
    gate: &G,
    table: &CoreTable,
    p: &Checked,
    shares: &mut [Hands],
    turn: u32,
)
    requires few { length shares.old ≤ 8 }
    requires table { All (IsTableOf table.now.table_id table.now.program
        table.now.cfg) shares.old }
    requires program { p.now ≡ table.now.program }
    requires some { 0 < turn }
    ensures same { (i : ℕ) (d : Handed) → i < length shares.old
        → AreSame (slice_index_or shares.old i d) (slice_index_or shares.new i d) }
    ensures count { length shares.new ≡ length shares.old }
{
    let count = shares.len();
    if count == 0 {
        return;
    }
    for_each_mut(
        rt,
        shares,
        count,
        &|i: usize, h: &mut Hands|
            requires { (i < 8) × IsTableOf table.now.table_id
                table.now.program table.now.cfg h.now
                × (p.now ≡ table.now.program) × (0 < turn) }
            ensures { AreSame h.entry.now h.exit.now }
        { work(h, table, p, gate, (i + 1) as u8, turn) },
    );
}

/// Gives a thread to a worker: to one that has none yet, or else to each in turn.
fn give(table: &CoreTable, shares: &mut Vec<Hands>, one: Hands, number: u8, workers: u8)
    requires some { 0 < workers }
    requires table { IsTableOf table.now.table_id table.now.program
        table.now.cfg one }
    requires tables { All (IsTableOf table.now.table_id table.now.program
        table.now.cfg) shares.old.items }
    requires room { length shares.old.items < vec_capacity shares.old }
    ensures tables { All (IsTableOf table.now.table_id table.now.program table.now.cfg)
        shares.new.items }
    ensures few { length shares.new.items ≤ length shares.old.items + 1 }
    ensures count { length shares.old.items ≤ workers
        → length shares.new.items ≡ min workers (length shares.old.items + 1) }
    ensures held { (t : ℕ) → list_any (holds t) shares.new.items
        ≡ (list_any (holds t) shares.old.items || holds t one) }
    ensures room { vec_capacity shares.new ≡ vec_capacity shares.old }
{
    let count = shares.len();
    if count < workers as usize {
        shares.push_reserved(one);
    } else {
        shares[number as usize % count].join(table, one);
    }
}

/// The shares of so many workers, or of as many as there are threads to share, for which there is
/// room.
fn share_out(
    table: &CoreTable,
    hands: &mut Hands,
    p: &Checked,
    workers: u8,
    mut shares: Vec<Hands>,
) -> Vec<Hands>
    requires some { 0 < workers }
    requires program { p.now ≡ table.now.program }
    requires here { RunsHere table.now.table_id table.now.program
        table.now.cfg hands.old }
    requires none { shares.items ≡ [] }
    requires room { 8 ≤ vec_capacity shares }
    ensures rest { RestOf table.now.table_id table.now.program table.now.cfg
        (p.now.program.workers + 1) (held_in hands.old.threads 0) hands.new }
    ensures tables { All (IsTableOf table.now.table_id table.now.program table.now.cfg)
        result.items }
    ensures few { length result.items ≤ 8 }
    ensures count { length result.items ≡ min workers p.now.program.workers }
    ensures shared { AreShared (p.now.program.workers + 1) result.items }
{
    let count = p.workers();
    for i in 0..count {
        let one = hands.split(table, i + 1);
        give(table, &mut shares, one, i, workers);
    }
    shares
}

/// Takes in the hands of all workers.
fn take_in(table: &CoreTable, hands: &mut Hands, p: &Checked, mut shares: Vec<Hands>)
    requires rest { IsTableOf table.now.table_id table.now.program
        table.now.cfg hands.old }
    requires tables { All (IsTableOf table.now.table_id table.now.program
        table.now.cfg) shares.items }
    requires first { IsSome (held_in hands.old.threads 0) }
    requires together { AreTogether p.now.program.workers hands.old shares.items }
    ensures table { IsTableOf table.now.table_id table.now.program
        table.now.cfg hands.new }
    ensures first { held_in hands.new.threads 0 ≡ held_in hands.old.threads 0 }
    ensures all { HoldsAll p.now hands.new.threads }
{
    while let Some(share) = shares.pop() {
        hands.join(table, share);
    }
}

/// The events of the workers, each on a thread of its own, with a share of the threads, for which
/// there is room. Thread 0 stays as it is.
pub(crate) fn run_apart<R: Threads + Sync, G: Gate + Sync>(
    rt: &R,
    gate: &G,
    table: &CoreTable,
    hands: &mut Hands,
    p: &Checked,
    shares: Vec<Hands>,
    workers: u8,
    turn: u32,
)
    requires some { (0 < workers) × (0 < turn) }
    requires program { p.now ≡ table.now.program }
    requires here { RunsHere table.now.table_id table.now.program
        table.now.cfg hands.old }
    requires waiting { IsWaiting hands.old.threads }
    requires none { shares.items ≡ [] }
    requires room { 8 ≤ vec_capacity shares }
    ensures here { RunsHere table.now.table_id table.now.program table.now.cfg hands.new }
    ensures waiting { IsWaiting hands.new.threads }
{
    let mut shares = share_out(table, hands, p, workers, shares);
    run_each(rt, gate, table, p, shares.as_mut_slice(), turn);
    take_in(table, hands, p, shares);
}
