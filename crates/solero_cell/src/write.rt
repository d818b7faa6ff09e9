//! The steps of a write.

ghost use Rattle.std.specs.Prelude.{◌≡◌, ◌+◌, ◌<◌, ◌^◌, [], length, Some};
ghost use Rattle.solero_cell.specs.Calls.{IsCellWritten};
ghost use Rattle.solero_cell.specs.Filling.{IsFilled, IsLockTaken, IsWrittenBehind};
ghost use Rattle.solero_cell.specs.CellViews.{IsStill};
ghost use Rattle.solero_cell.specs.Stages.{IsSeatAt, IsStoring};

use crate::answers::CellWrite;
use crate::rule::CellTable;
use crate::steps;
use crate::views::View;
use atomic_table::Seat;
use lock_word::{LockWord, word};

/// The last count of a cell.
const LAST_COUNT: u64 = (1 << 62) - 1;

/// Stores all values.
#[inline(always)]
#[tactic(auto, using(crate::proofs::Going::store_on, crate::proofs::Going::storing_on))]
fn store_values(table: &CellTable, seat: &mut Seat<(), View>, values: &[u64])
    requires seat { IsSeatAt table.now.shared.table_id table.now.shared.key seat.old.table_id
        seat.old.me.0 }
    requires storing { IsStoring 0 seat.old.me.0 }
    requires values { seat.old.me.0.storing ≡ Some (record { stored = []; left = values.now }) }
    requires long { length values.now ≡ length table.now.shared.key.values }
    ensures seat { (seat.new.table_id ≡ seat.old.table_id) × (seat.new.me.1 ≡ seat.old.me.1) }
    ensures stored { seat.new.me.0
        ≡ record seat.old.me.0 { storing = Some (record { stored = values.now; left = [] }) } }
{
    let count = values.len();
    for i in 0..count {
        steps::store_value(table, seat, i, values[i]);
    }
}

/// A write that has taken the lock at `count`.
#[inline(always)]
fn fill(table: &CellTable, seat: &mut Seat<(), View>, values: &[u64], count: u64)
    requires seat { IsSeatAt table.now.shared.table_id table.now.shared.key seat.old.table_id
        seat.old.me.0 }
    requires taken { IsLockTaken count values.now seat.old.me.0 }
    requires long { length values.now ≡ length table.now.shared.key.values }
    requires small { count + 1 < 2 ^ 62 }
    ensures seat { (seat.new.table_id ≡ seat.old.table_id) × (seat.new.me.1 ≡ seat.old.me.1) }
    ensures filled { IsFilled seat.old.me.0 count values.now seat.new.me.0 }
{
    store_values(table, seat, values);
    steps::release(table, seat, count + 1);
}

/// A write behind the note of `count`.
#[inline(always)]
fn write_behind(
    table: &CellTable,
    seat: &mut Seat<(), View>,
    values: &[u64],
    count: u64,
) -> CellWrite
    requires seat { IsSeatAt table.now.shared.table_id table.now.shared.key seat.old.table_id
        seat.old.me.0 }
    requires still { IsStill seat.old.me.0 }
    requires noted { seat.old.me.0.note ≡ Some count }
    requires long { length values.now ≡ length table.now.shared.key.values }
    requires small { count < 2 ^ 62 }
    ensures seat { (seat.new.table_id ≡ seat.old.table_id) × (seat.new.me.1 ≡ seat.old.me.1) }
    ensures behind { IsWrittenBehind seat.old.me.0 count values.now result seat.new.me.0 }
{
    if count == LAST_COUNT {
        return CellWrite::Full;
    }
    let expected = word(LockWord::Free(count));
    let found = steps::take(table, seat, expected, values);
    if found != expected {
        return CellWrite::Lost { expected, found };
    }
    fill(table, seat, values, count);
    CellWrite::Wrote(count + 1)
}

/// A write.
#[inline(always)]
pub(crate) fn write(table: &CellTable, seat: &mut Seat<(), View>, values: &[u64]) -> CellWrite
    requires seat { IsSeatAt table.now.shared.table_id table.now.shared.key seat.old.table_id
        seat.old.me.0 }
    requires still { IsStill seat.old.me.0 }
    requires long { length values.now ≡ length table.now.shared.key.values }
    ensures seat { (seat.new.table_id ≡ seat.old.table_id) × (seat.new.me.1 ≡ seat.old.me.1) }
    ensures written { IsCellWritten seat.old.me.0 values.now result seat.new.me.0 }
{
    let found = steps::note(table, seat);
    match lock_word::read(found) {
        LockWord::Free(count) => write_behind(table, seat, values, count),
        _ => CellWrite::NotFree(found),
    }
}
