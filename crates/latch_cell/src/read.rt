//! The attempts of a read.

ghost use Rattle.std.specs.Prelude.{◌≡◌, ◌<◌, ◌≤◌, length, Some};
ghost use Rattle.solero_cell.specs.CellViews.{IsStill};
ghost use Rattle.solero_cell.specs.Stages.{IsLoading};
ghost use Rattle.solero_cell.specs.Steps.{note_of};
ghost use Rattle.latch_cell.specs.Copies.{copy_start};
ghost use Rattle.latch_cell.specs.LatchAttempts.{IsBehindCount, IsLatchAttempt};
ghost use Rattle.latch_cell.specs.LatchCalls.{IsLatchTried};
ghost use Rattle.latch_cell.specs.LatchStages.{IsLatchSeatAt};

use crate::answers::LatchRead;
use crate::rule::LatchTable;
use crate::steps;
use atomic_table::Seat;
use solero_cell::{Attempt, First, Last, View};

/// Loads all values of the copy that begins at `start`.
#[inline(always)]
#[tactic(auto, using(solero_cell::proofs::Going::load_on))]
fn load_values(table: &LatchTable, seat: &mut Seat<(), View>, start: usize, values: &mut [u64])
    requires seat { IsLatchSeatAt table.now.shared.table_id table.now.shared.key
        seat.old.table_id seat.old.me.0 }
    requires loading { IsLoading 0 seat.old.me.0 }
    requires long { length values.old ≡ length table.now.shared.key.values }
    requires start { start
        ≡ copy_start (length table.now.shared.key.values) (note_of seat.old.me.0) }
    requires low { start ≤ 96 }
    ensures seat { (seat.new.table_id ≡ seat.old.table_id) × (seat.new.me.1 ≡ seat.old.me.1) }
    ensures loaded { seat.new.me.0 ≡ record seat.old.me.0 { loaded = values.new } }
    ensures long { length values.new ≡ length values.old }
{
    let count = values.len();
    for i in 0..count {
        values[i] = steps::load_value(table, seat, start, i);
    }
}

/// The loads of an attempt that has noted a count.
#[inline(always)]
#[tactic(auto, using(crate::proofs::Reading::behind_got, crate::proofs::Reading::behind_changed))]
fn attempt_behind<A: Attempt>(
    table: &LatchTable,
    seat: &mut Seat<(), View>,
    values: &mut [u64],
    count: u64,
) -> LatchRead
    requires seat { IsLatchSeatAt table.now.shared.table_id table.now.shared.key
        seat.old.table_id seat.old.me.0 }
    requires still { IsStill seat.old.me.0 }
    requires noted { seat.old.me.0.note ≡ Some count }
    requires long { length values.old ≡ length table.now.shared.key.values }
    ensures seat { (seat.new.table_id ≡ seat.old.table_id) × (seat.new.me.1 ≡ seat.old.me.1) }
    ensures long { length values.new ≡ length values.old }
    ensures behind { IsBehindCount A.is_last seat.old.me.0 count values.new result seat.new.me.0 }
{
    let start = steps::copy_start(values.len(), count);
    load_values(table, seat, start, values);
    let found = steps::count_again::<A>(table, seat);
    if found == count {
        LatchRead::Got(count)
    } else {
        LatchRead::Changed {
            noted: count,
            found,
        }
    }
}

/// One attempt at a read.
#[inline(always)]
fn attempt<A: Attempt>(
    table: &LatchTable,
    seat: &mut Seat<(), View>,
    values: &mut [u64],
) -> LatchRead
    requires seat { IsLatchSeatAt table.now.shared.table_id table.now.shared.key
        seat.old.table_id seat.old.me.0 }
    requires still { IsStill seat.old.me.0 }
    requires long { length values.old ≡ length table.now.shared.key.values }
    ensures seat { (seat.new.table_id ≡ seat.old.table_id) × (seat.new.me.1 ≡ seat.old.me.1) }
    ensures long { length values.new ≡ length values.old }
    ensures attempt { IsLatchAttempt A.is_last seat.old.me.0 values.new result seat.new.me.0 }
{
    let count = steps::count(table, seat);
    attempt_behind::<A>(table, seat, values, count)
}

/// A read: an attempt, and a second one where a whole write ended in it.
#[inline(always)]
pub(crate) fn read(table: &LatchTable, seat: &mut Seat<(), View>, values: &mut [u64]) -> LatchRead
    requires seat { IsLatchSeatAt table.now.shared.table_id table.now.shared.key
        seat.old.table_id seat.old.me.0 }
    requires still { IsStill seat.old.me.0 }
    requires long { length values.old ≡ length table.now.shared.key.values }
    ensures seat { (seat.new.table_id ≡ seat.old.table_id) × (seat.new.me.1 ≡ seat.old.me.1) }
    ensures long { length values.new ≡ length values.old }
    ensures tried { IsLatchTried seat.old.me.0 values.new result seat.new.me.0 }
{
    match attempt::<First>(table, seat, values) {
        LatchRead::Changed { .. } => attempt::<Last>(table, seat, values),
        answer => answer,
    }
}
