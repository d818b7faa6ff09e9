//! The run of a cell.

ghost use Rattle.std.specs.Prelude.{◌≡◌, ℕ, ◌*◌, ◌<◌, ◌≤◌, IfOk};
ghost use Rattle.solero_cell.specs.Calls.{IsTableOfSeat, IsWhole};
ghost use Rattle.cell_runner.specs.CellRuns.{IsCellRun, all_zero};
ghost use Rattle.cell_runner.specs.HandsOfCell.{HasGathered};

use crate::hands::Hand;
use crate::report::CellReport;
use crate::workers::run_workers;
use jvm_types::Gate;
use lists::Rows;
use solero_cell::{CellTable, MOST_VALUES, cell};
use std::alloc::{AllocError, Global};
use std::thread::Threads;

/// The most rounds of a worker.
pub const MOST_ROUNDS: u32 = 1_000;

/// Ends the cell, when all workers have ended: what they came to. None has found the cell full,
/// which has had at most 8,000 writes.
fn finish(table: CellTable, all: Hand) -> CellReport
    requires table { IsTableOfSeat table.shared.table_id table.shared.key all.seat }
    requires opening { table.shared.key ≡ all_zero }
    requires whole { IsWhole all.seat.view.share }
    ensures { (workers rounds turns : ℕ) → workers * rounds ≤ 8000
        → HasGathered table.shared.table_id table.shared.key workers rounds turns all
        → IsCellRun workers rounds turns result }
{
    let Hand { seat, tally, .. } = all;
    let end = seat.close(table);
    CellReport {
        writes: tally.writes,
        reads: tally.reads,
        stopped: tally.stopped,
        end,
    }
}

/// Runs workers on one cell of 64 words, which opens with words 0 under the count 0, each worker on
/// a thread of its own: what they came to, by the rule of the cell. The report has what the cell
/// left when its last seat ended it, and its numbers are those of that seat. Its error is want of
/// memory.
///
/// Worker `k`, from 1, calls `gate.pass(k)` once, before its first round. In each round it writes
/// 64 words of the value `k`, and then reads, each again until it succeeds. A try that fails is a
/// failed turn, behind which it leaves the processor to others; a worker that fails `turns` of them
/// in a row stops. Nothing is promised of the order, nor that workers run beside each other: where
/// the system gives no thread, they run one after another.
pub fn run_cell<R: Threads + Sync, G: Gate + Sync>(
    rt: &R,
    alloc: Global,
    gate: &G,
    threads: u8,
    rounds: u32,
    turns: u32,
) -> Result<CellReport, AllocError>
    requires threads { threads ≤ 8 }
    requires rounds { (0 < rounds) × (rounds ≤ MOST_ROUNDS) }
    requires turns { 0 < turns }
    ensures { IfOk result (IsCellRun threads rounds turns) }
{
    let values = Rows::from_slice(alloc, &[0; MOST_VALUES])?;
    let (table, seat) = cell(alloc, &values, 0)?;
    let all = run_workers(rt, alloc, gate, &table, seat, threads, rounds, turns)?;
    Ok(finish(table, all))
}
