//! The workers, each with a hand of its own.

ghost use Rattle.std.specs.Prelude.{◌≡◌, ◌+◌, ◌<◌, ◌≤◌, length, IfOk, OnOk};
ghost use Rattle.solero_cell.specs.Calls.{IsWhole};
ghost use Rattle.cell_runner.specs.HandsOfCell.{AreReady, HasGathered, HasWorked, HaveWorked};
ghost use Rattle.cell_runner.specs.HandsOfCell.{IsFreshSeat, IsReady};

use crate::hands::Hand;
use jvm_types::Gate;
use solero_cell::{CellSeat, CellTable};
use std::alloc::{AllocError, Global};
use std::thread::{Threads, for_each_mut};

/// A worker: it passes the gate, and makes its rounds.
fn work<G: Gate>(hand: &mut Hand, gate: &G, table: &CellTable, number: u8, rounds: u32, turns: u32)
    requires ready { IsReady table.now.shared.table_id table.now.shared.key number hand.old }
    requires values { length table.now.shared.key.values ≡ 64 }
    requires few { rounds ≤ 1000 }
    ensures { HasWorked table.now.shared.table_id table.now.shared.key number rounds turns
        hand.new }
{
    gate.pass(number);
    hand.work(table, number, rounds, turns);
}

/// Each worker on a thread of its own.
fn run_each<R: Threads + Sync, G: Gate + Sync>(
    rt: &R,
    gate: &G,
    table: &CellTable,
    hands: &mut [Hand],
    rounds: u32,
    turns: u32,
)
    requires few { length hands.old ≤ 8 }
    requires ready { AreReady table.now.shared.table_id table.now.shared.key hands.old }
    requires values { length table.now.shared.key.values ≡ 64 }
    requires rounds { rounds ≤ 1000 }
    ensures worked { HaveWorked table.now.shared.table_id table.now.shared.key rounds turns
        hands.new }
    ensures count { length hands.new ≡ length hands.old }
{
    let count = hands.len();
    if count == 0 {
        return;
    }
    for_each_mut(
        rt,
        hands,
        count,
        &|i: usize, hand: &mut Hand|
            requires { (i < 8)
                × IsReady table.now.shared.table_id table.now.shared.key (i + 1) hand.old
                × (length table.now.shared.key.values ≡ 64) × (rounds ≤ 1000) }
            ensures { HasWorked table.entry.now.shared.table_id table.entry.now.shared.key (i + 1)
                rounds turns hand.new }
        { work(hand, gate, table, (i + 1) as u8, rounds, turns) },
    );
}

/// A hand for each worker.
fn split_hands(
    alloc: Global,
    table: &CellTable,
    seat: &mut CellSeat,
    workers: u8,
) -> Result<Vec<Hand>, AllocError>
    requires fresh { IsFreshSeat table.now.shared.table_id table.now.shared.key 0 seat.old }
    ensures fresh { OnOk result
        (IsFreshSeat table.now.shared.table_id table.now.shared.key workers seat.new) }
    ensures ready { IfOk result (λ hands.
        AreReady table.now.shared.table_id table.now.shared.key hands.items
        × (length hands.items ≡ workers)) }
{
    let mut hands = Vec::new(alloc);
    for _ in 0..workers {
        hands.push(Hand::of(seat.split(table)))?;
    }
    Ok(hands)
}

/// Runs the workers, and takes in the hands of all of them.
pub(crate) fn run_workers<R: Threads + Sync, G: Gate + Sync>(
    rt: &R,
    alloc: Global,
    gate: &G,
    table: &CellTable,
    mut seat: CellSeat,
    workers: u8,
    rounds: u32,
    turns: u32,
) -> Result<Hand, AllocError>
    requires fresh { IsFreshSeat table.now.shared.table_id table.now.shared.key 0 seat }
    requires workers { workers ≤ 8 }
    requires values { length table.now.shared.key.values ≡ 64 }
    requires rounds { rounds ≤ 1000 }
    ensures gathered { IfOk result
        (HasGathered table.now.shared.table_id table.now.shared.key workers rounds turns) }
    ensures whole { IfOk result (λ h. IsWhole h.seat.view.share) }
{
    let mut hands = split_hands(alloc, table, &mut seat, workers)?;
    run_each(rt, gate, table, hands.as_mut_slice(), rounds, turns);
    let mut all = Hand::of(seat);
    while let Some(hand) = hands.pop() {
        all = all.join(table, hand);
    }
    Ok(all)
}
