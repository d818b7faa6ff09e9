//! The attempts of a read.

ghost use Rattle.std.specs.Prelude.{◌≡◌, ◌<◌, ◌^◌, length, Some};
ghost use Rattle.solero_cell.specs.Attempts.{IsAttempt, IsBehindRead, IsTried};
ghost use Rattle.solero_cell.specs.CellViews.{IsStill};
ghost use Rattle.solero_cell.specs.Stages.{IsLoading, IsSeatAt};

use crate::answers::CellRead;
use crate::rule::{Attempt, CellTable, First, Last};
use crate::steps;
use crate::views::View;
use atomic_table::Seat;
use lock_word::{LockWord, word};

/// Loads all values.
#[inline(always)]
#[tactic(auto, using(crate::proofs::Going::load_on))]
fn load_values(table: &CellTable, seat: &mut Seat<(), View>, values: &mut [u64])
    requires seat { IsSeatAt table.now.shared.table_id table.now.shared.key seat.old.table_id
        seat.old.me.0 }
    requires loading { IsLoading 0 seat.old.me.0 }
    requires long { length values.old ≡ length table.now.shared.key.values }
    ensures seat { (seat.new.table_id ≡ seat.old.table_id) × (seat.new.me.1 ≡ seat.old.me.1) }
    ensures loaded { seat.new.me.0 ≡ record seat.old.me.0 { loaded = values.new } }
    ensures long { length values.new ≡ length values.old }
{
    let count = values.len();
    for i in 0..count {
        values[i] = steps::load_value(table, seat, i);
    }
}

/// The loads of an attempt that has noted a count.
#[inline(always)]
#[tactic(auto, using(crate::proofs::Going::behind_got, crate::proofs::Going::behind_changed))]
fn attempt_behind<A: Attempt>(
    table: &CellTable,
    seat: &mut Seat<(), View>,
    values: &mut [u64],
    count: u64,
) -> CellRead
    requires seat { IsSeatAt table.now.shared.table_id table.now.shared.key seat.old.table_id
        seat.old.me.0 }
    requires still { IsStill seat.old.me.0 }
    requires noted { seat.old.me.0.note ≡ Some count }
    requires small { count < 2 ^ 62 }
    requires long { length values.old ≡ length table.now.shared.key.values }
    ensures seat { (seat.new.table_id ≡ seat.old.table_id) × (seat.new.me.1 ≡ seat.old.me.1) }
    ensures long { length values.new ≡ length values.old }
    ensures behind { IsBehindRead A.is_last seat.old.me.0 count values.new result seat.new.me.0 }
{
    load_values(table, seat, values);
    let noted = word(LockWord::Free(count));
    let found = steps::finish::<A>(table, seat);
    if found == noted {
        CellRead::Got(count)
    } else {
        CellRead::Changed { noted, found }
    }
}

/// One attempt at a read.
#[inline(always)]
fn attempt<A: Attempt>(table: &CellTable, seat: &mut Seat<(), View>, values: &mut [u64]) -> CellRead
    requires seat { IsSeatAt table.now.shared.table_id table.now.shared.key seat.old.table_id
        seat.old.me.0 }
    requires still { IsStill seat.old.me.0 }
    requires long { length values.old ≡ length table.now.shared.key.values }
    ensures seat { (seat.new.table_id ≡ seat.old.table_id) × (seat.new.me.1 ≡ seat.old.me.1) }
    ensures long { length values.new ≡ length values.old }
    ensures attempt { IsAttempt A.is_last seat.old.me.0 values.new result seat.new.me.0 }
{
    let found = steps::note(table, seat);
    match lock_word::read(found) {
        LockWord::Free(count) => attempt_behind::<A>(table, seat, values, count),
        _ => CellRead::NotFree(found),
    }
}

/// A read: an attempt, and a second one where a write came between.
#[inline(always)]
pub(crate) fn read(table: &CellTable, seat: &mut Seat<(), View>, values: &mut [u64]) -> CellRead
    requires seat { IsSeatAt table.now.shared.table_id table.now.shared.key seat.old.table_id
        seat.old.me.0 }
    requires still { IsStill seat.old.me.0 }
    requires long { length values.old ≡ length table.now.shared.key.values }
    ensures seat { (seat.new.table_id ≡ seat.old.table_id) × (seat.new.me.1 ≡ seat.old.me.1) }
    ensures long { length values.new ≡ length values.old }
    ensures tried { IsTried seat.old.me.0 values.new result seat.new.me.0 }
{
    match attempt::<First>(table, seat, values) {
        CellRead::Changed { .. } => attempt::<Last>(table, seat, values),
        answer => answer,
    }
}

/// Copies values, of which a single one takes a store and no copying of bytes.
#[inline(always)]
#[tactic(auto, using(crate::proofs::Going::only_value))]
pub fn copy_values(out: &mut [u64], values: &[u64])
    requires { length out.old ≡ length values.now }
    ensures { out.new ≡ values.now }
{
    if values.len() == 1 {
        out[0] = values[0];
    } else {
        out.copy_from_slice(values);
    }
}
