//! The steps of a seat, each of which is one step on one word of the table.

ghost use Rattle.std.specs.Prelude.{◌≡◌, ◌+◌, ◌<◌, ◌^◌, [], length, slice_get, Some};
ghost use Rattle.solero_cell.specs.Calls.{IsAtEnd};
ghost use Rattle.solero_cell.specs.CellViews.{IsStill, halved, has_loaded, has_stored, newcomer};
ghost use Rattle.solero_cell.specs.CellViews.{taken_in};
ghost use Rattle.solero_cell.specs.Stages.{IsJoining, IsLoading, IsNoted, IsSeatAt, IsStoring};
ghost use Rattle.solero_cell.specs.Steps.{HasCompared, HasWritten, TellsFinish, TellsNote};
ghost use Rattle.solero_cell.specs.Steps.{TellsTake, note_of, storing_of};

use crate::rule::{
    Attempt, CellTable, Compares, Cuts, Ends, Finishes, Joins, Loads, Notes, Releases, Stores,
    Takes, Writing,
};
use crate::views::View;
use atomic_table::Seat;
use lock_word::{LockWord, word};
use std::marker::Brand;

/// The word of the lock.
const LOCK: usize = 0;

/// The first word of the values.
const VALUES: usize = 1;

/// A note load: the lock word. Where it is not free the try fails.
pub(crate) fn note(table: &CellTable, seat: &mut Seat<(), View>) -> u64
    requires seat { IsSeatAt table.now.shared.table_id table.now.shared.key seat.old.table_id
        seat.old.me.0 }
    requires still { IsStill seat.old.me.0 }
    ensures seat { (seat.new.table_id ≡ seat.old.table_id) × (seat.new.me.1 ≡ seat.old.me.1) }
    ensures tells { TellsNote seat.old.me.0 result seat.new.me.0 }
{
    table.shared.load::<Notes>(seat, LOCK)
}

/// A value load: value `i`, which is the next one.
pub(crate) fn load_value(table: &CellTable, seat: &mut Seat<(), View>, i: usize) -> u64
    requires seat { IsSeatAt table.now.shared.table_id table.now.shared.key seat.old.table_id
        seat.old.me.0 }
    requires loading { IsLoading i seat.old.me.0 }
    requires within { i < length table.now.shared.key.values }
    ensures seat { (seat.new.table_id ≡ seat.old.table_id) × (seat.new.me.1 ≡ seat.old.me.1) }
    ensures tells { seat.new.me.0 ≡ has_loaded result seat.old.me.0 }
{
    table.shared.load::<Loads>(seat, VALUES + i)
}

/// A finish load: the lock word again.
pub(crate) fn finish<A: Attempt>(table: &CellTable, seat: &mut Seat<(), View>) -> u64
    requires seat { IsSeatAt table.now.shared.table_id table.now.shared.key seat.old.table_id
        seat.old.me.0 }
    requires loading { IsLoading (length table.now.shared.key.values) seat.old.me.0 }
    ensures seat { (seat.new.table_id ≡ seat.old.table_id) × (seat.new.me.1 ≡ seat.old.me.1) }
    ensures tells { TellsFinish A.is_last seat.old.me.0 result seat.new.me.0 }
{
    table.shared.load::<Finishes<A>>(seat, LOCK)
}

/// The take exchange of a write of the values that `B` names.
fn take_by<B: Writing>(
    table: &CellTable,
    seat: &mut Seat<(), View>,
    noted: u64,
    _values: &[u64],
) -> u64
    requires values { B.values ≡ _values.now }
    requires seat { IsSeatAt table.now.shared.table_id table.now.shared.key seat.old.table_id
        seat.old.me.0 }
    requires noted { IsNoted noted seat.old.me.0 }
    requires long { length _values.now ≡ length table.now.shared.key.values }
    ensures seat { (seat.new.table_id ≡ seat.old.table_id) × (seat.new.me.1 ≡ seat.old.me.1) }
    ensures tells { TellsTake _values.now seat.old.me.0 result seat.new.me.0 }
{
    table
        .shared
        .compare_exchange::<Takes<B>>(seat, LOCK, noted, word(LockWord::Held(0)))
}

/// A take exchange: the lock word, which is held now where it was the free one that was noted.
pub(crate) fn take(table: &CellTable, seat: &mut Seat<(), View>, noted: u64, values: &[u64]) -> u64
    requires seat { IsSeatAt table.now.shared.table_id table.now.shared.key seat.old.table_id
        seat.old.me.0 }
    requires noted { IsNoted noted seat.old.me.0 }
    requires long { length values.now ≡ length table.now.shared.key.values }
    ensures seat { (seat.new.table_id ≡ seat.old.table_id) × (seat.new.me.1 ≡ seat.old.me.1) }
    ensures tells { TellsTake values.now seat.old.me.0 result seat.new.me.0 }
{
    take_by::<Brand>(table, seat, noted, values)
}

/// A value store: value `i`, which is the next one.
pub(crate) fn store_value(table: &CellTable, seat: &mut Seat<(), View>, i: usize, value: u64)
    requires seat { IsSeatAt table.now.shared.table_id table.now.shared.key seat.old.table_id
        seat.old.me.0 }
    requires storing { IsStoring i seat.old.me.0
        × (slice_get (storing_of seat.old.me.0).left 0 ≡ Some value) }
    requires within { i < length table.now.shared.key.values }
    ensures seat { (seat.new.table_id ≡ seat.old.table_id) × (seat.new.me.1 ≡ seat.old.me.1) }
    ensures tells { seat.new.me.0 ≡ has_stored (storing_of seat.old.me.0) seat.old.me.0 }
{
    table.shared.store::<Stores>(seat, VALUES + i, value);
}

/// A release store: the lock is free, with one count more.
pub(crate) fn release(table: &CellTable, seat: &mut Seat<(), View>, count: u64)
    requires seat { IsSeatAt table.now.shared.table_id table.now.shared.key seat.old.table_id
        seat.old.me.0 }
    requires storing { IsStoring (length table.now.shared.key.values) seat.old.me.0 }
    requires count { (count ≡ note_of seat.old.me.0 + 1) × (count < 2 ^ 62) }
    ensures seat { (seat.new.table_id ≡ seat.old.table_id) × (seat.new.me.1 ≡ seat.old.me.1) }
    ensures tells { HasWritten seat.old.me.0 seat.new.me.0 }
{
    table
        .shared
        .store::<Releases>(seat, LOCK, word(LockWord::Free(count)));
}

/// The seat is split: another one has half of its share.
pub(crate) fn cut(table: &CellTable, seat: &mut Seat<(), View>) -> Seat<(), View>
    requires seat { IsSeatAt table.now.shared.table_id table.now.shared.key seat.old.table_id
        seat.old.me.0 }
    requires still { IsStill seat.old.me.0 }
    ensures seat { (seat.new.table_id ≡ seat.old.table_id) × (seat.new.me.1 ≡ seat.old.me.1)
        × (seat.new.me.0 ≡ halved seat.old.me.0) }
    ensures other { (result.table_id ≡ seat.old.table_id) × (result.me.1 ≡ [])
        × (result.me.0 ≡ newcomer seat.old.me.0) }
{
    table.shared.split_seat::<Cuts>(seat)
}

/// The seat takes in another, whose view is spent.
pub(crate) fn glue(table: &CellTable, seat: &mut Seat<(), View>, other: Seat<(), View>)
    requires seat { IsSeatAt table.now.shared.table_id table.now.shared.key seat.old.table_id
        seat.old.me.0 }
    requires other { IsSeatAt table.now.shared.table_id table.now.shared.key other.table_id
        other.me.0 × (other.me.1 ≡ []) }
    requires still { IsStill seat.old.me.0 × IsStill other.me.0 }
    ensures seat { (seat.new.table_id ≡ seat.old.table_id) × (seat.new.me.1 ≡ seat.old.me.1)
        × (seat.new.me.0 ≡ taken_in seat.old.me.0 other.me.0) }
{
    table.shared.join_seat::<Joins>(seat, other);
}

/// The second load of a join, which compares the latest records.
pub(crate) fn compare(table: &CellTable, seat: &mut Seat<(), View>)
    requires seat { IsSeatAt table.now.shared.table_id table.now.shared.key seat.old.table_id
        seat.old.me.0 }
    requires joining { IsJoining seat.old.me.0 }
    ensures seat { (seat.new.table_id ≡ seat.old.table_id) × (seat.new.me.1 ≡ seat.old.me.1) }
    ensures tells { HasCompared seat.old.me.0 seat.new.me.0 }
{
    let _nothing = table.shared.load::<Compares>(seat, LOCK);
}

/// The last load of a cell, which tells what holds of it and of its seats.
pub(crate) fn end(table: &CellTable, seat: &mut Seat<(), View>)
    requires seat { IsSeatAt table.now.shared.table_id table.now.shared.key seat.old.table_id
        seat.old.me.0 }
    ensures seat { (seat.new.table_id ≡ seat.old.table_id) × (seat.new.me ≡ seat.old.me) }
    ensures tells { IsAtEnd seat.old.me.0 }
{
    let _nothing = table.shared.load::<Ends>(seat, LOCK);
}
