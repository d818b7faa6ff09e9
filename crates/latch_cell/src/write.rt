//! The steps of a write.

ghost use Rattle.std.specs.Prelude.{◌≡◌, ◌+◌, ◌<◌, ◌≤◌, ◌^◌, [], length, Some};
ghost use Rattle.solero_cell.specs.CellViews.{IsStill};
ghost use Rattle.solero_cell.specs.Filling.{IsLockTaken};
ghost use Rattle.solero_cell.specs.Stages.{IsStoring};
ghost use Rattle.solero_cell.specs.Steps.{note_of};
ghost use Rattle.latch_cell.specs.Copies.{copy_start};
ghost use Rattle.latch_cell.specs.LatchCalls.{IsLatchWritten};
ghost use Rattle.latch_cell.specs.LatchFilling.{IsCopyFilled, IsLatchWrittenBehind};
ghost use Rattle.latch_cell.specs.LatchStages.{IsLatchSeatAt};

use crate::rule::LatchTable;
use crate::steps;
use atomic_table::Seat;
use lock_word::{LockWord, word};
use solero_cell::{CellWrite, View};

/// The last count of a cell.
const LAST_COUNT: u64 = (1 << 62) - 1;

/// Stores all values into the copy that begins at `start`.
#[inline(always)]
#[tactic(auto, using(solero_cell::proofs::Going::store_on, solero_cell::proofs::Going::storing_on))]
fn store_values(table: &LatchTable, seat: &mut Seat<(), View>, start: usize, values: &[u64])
    requires seat { IsLatchSeatAt table.now.shared.table_id table.now.shared.key
        seat.old.table_id seat.old.me.0 }
    requires storing { IsStoring 0 seat.old.me.0 }
    requires values { seat.old.me.0.storing ≡ Some (record { stored = []; left = values.now }) }
    requires long { length values.now ≡ length table.now.shared.key.values }
    requires start { start
        ≡ copy_start (length table.now.shared.key.values) (note_of seat.old.me.0 + 1) }
    requires low { start ≤ 96 }
    ensures seat { (seat.new.table_id ≡ seat.old.table_id) × (seat.new.me.1 ≡ seat.old.me.1) }
    ensures stored { seat.new.me.0
        ≡ record seat.old.me.0 { storing = Some (record { stored = values.now; left = [] }) } }
{
    let count = values.len();
    for i in 0..count {
        steps::store_value(table, seat, start, i, values[i]);
    }
}

/// A write that has taken the lock at `count`.
#[inline(always)]
fn fill(table: &LatchTable, seat: &mut Seat<(), View>, values: &[u64], count: u64)
    requires seat { IsLatchSeatAt table.now.shared.table_id table.now.shared.key
        seat.old.table_id seat.old.me.0 }
    requires taken { IsLockTaken count values.now seat.old.me.0 }
    requires long { length values.now ≡ length table.now.shared.key.values }
    requires small { count + 1 < 2 ^ 62 }
    ensures seat { (seat.new.table_id ≡ seat.old.table_id) × (seat.new.me.1 ≡ seat.old.me.1) }
    ensures filled { IsCopyFilled seat.old.me.0 count values.now seat.new.me.0 }
{
    let start = steps::copy_start(values.len(), count + 1);
    store_values(table, seat, start, values);
    steps::publish(table, seat, count + 1);
    steps::let_go(table, seat, count + 1);
}

/// A write behind the note of `count`.
#[inline(always)]
fn write_behind(
    table: &LatchTable,
    seat: &mut Seat<(), View>,
    values: &[u64],
    count: u64,
) -> CellWrite
    requires seat { IsLatchSeatAt table.now.shared.table_id table.now.shared.key
        seat.old.table_id seat.old.me.0 }
    requires still { IsStill seat.old.me.0 }
    requires noted { seat.old.me.0.note ≡ Some count }
    requires long { length values.now ≡ length table.now.shared.key.values }
    requires small { count < 2 ^ 62 }
    ensures seat { (seat.new.table_id ≡ seat.old.table_id) × (seat.new.me.1 ≡ seat.old.me.1) }
    ensures behind { IsLatchWrittenBehind seat.old.me.0 count values.now result seat.new.me.0 }
{
    if count == LAST_COUNT {
        return CellWrite::Full;
    }
    let expected = word(LockWord::Free(count));
    let found = steps::take(table, seat, expected, values);
    if found != expected {
        return CellWrite::Lost { expected, found };
    }
    fill(table, seat, values, count);
    CellWrite::Wrote(count + 1)
}

/// A write.
#[inline(always)]
pub(crate) fn write(table: &LatchTable, seat: &mut Seat<(), View>, values: &[u64]) -> CellWrite
    requires seat { IsLatchSeatAt table.now.shared.table_id table.now.shared.key
        seat.old.table_id seat.old.me.0 }
    requires still { IsStill seat.old.me.0 }
    requires long { length values.now ≡ length table.now.shared.key.values }
    ensures seat { (seat.new.table_id ≡ seat.old.table_id) × (seat.new.me.1 ≡ seat.old.me.1) }
    ensures written { IsLatchWritten seat.old.me.0 values.now result seat.new.me.0 }
{
    let found = steps::note(table, seat);
    match lock_word::read(found) {
        LockWord::Free(count) => write_behind(table, seat, values, count),
        _ => CellWrite::NotFree(found),
    }
}
