//! The steps of a seat, each of which is one step on one word of the table.

ghost use Rattle.std.specs.Prelude.{◌≡◌, ◌+◌, ◌<◌, ◌≤◌, ◌^◌, [], length, slice_get, Some};
ghost use Rattle.solero_cell.specs.CellViews.{IsStill, halved, has_loaded, has_stored, newcomer};
ghost use Rattle.solero_cell.specs.CellViews.{taken_in};
ghost use Rattle.solero_cell.specs.Stages.{IsJoining, IsLoading, IsNoted, IsStoring};
ghost use Rattle.solero_cell.specs.Steps.{HasCompared, TellsNote, TellsTake, note_of, storing_of};
ghost use Rattle.latch_cell.specs.Copies.{copy_gap, copy_start};
ghost use Rattle.latch_cell.specs.LatchStages.{IsLatchSeatAt};
ghost use Rattle.latch_cell.specs.LatchSteps.{HasCounted, HasLetGo, HasPublished};
ghost use Rattle.latch_cell.specs.LatchSteps.{TellsCopyFinish};

use crate::rule::{Counts, CountsAgain, LatchTable, LetsGo, Publishes};
use atomic_table::Seat;
use lock_word::{LockWord, word};
use solero_cell::{Attempt, Compares, Cuts, Joins, Loads, Notes, Stores, Takes, View, Writing};
use std::marker::Brand;

/// The word of the lock.
const LOCK: usize = 0;

/// The word of the count.
const COUNT: usize = 1;

/// The first word behind it.
const BEHIND: usize = 2;

/// From so many values on they have unused words before them: with the count, fewer than these take
/// a line of a processor's cache.
const MANY_VALUES: usize = 4;

/// So many of them, which are two lines of a cache less a word: processors fetch those by pairs.
pub(crate) const GAP: usize = 15;

/// How many words before each copy of so many values are unused.
#[inline(always)]
#[tactic(auto, unfolding(crate::specs::Copies::copy_gap))]
pub(crate) fn copy_gap(len: usize) -> usize
    ensures gap { result ≡ copy_gap len }
    ensures low { result ≤ 15 }
{
    if len < MANY_VALUES { 0 } else { GAP }
}

/// The first word of the copy for a count, of so many values.
#[inline(always)]
pub(crate) fn copy_start(len: usize, count: u64) -> usize
    requires few { len ≤ 64 }
    ensures start { result ≡ copy_start len count }
    ensures low { result ≤ 96 }
{
    let gap = copy_gap(len);
    if count % 2 == 0 {
        BEHIND + gap
    } else {
        BEHIND + 2 * gap + len
    }
}

/// A read's load of the count.
pub(crate) fn count(table: &LatchTable, seat: &mut Seat<(), View>) -> u64
    requires seat { IsLatchSeatAt table.now.shared.table_id table.now.shared.key
        seat.old.table_id seat.old.me.0 }
    requires still { IsStill seat.old.me.0 }
    ensures seat { (seat.new.table_id ≡ seat.old.table_id) × (seat.new.me.1 ≡ seat.old.me.1) }
    ensures tells { HasCounted seat.old.me.0 result seat.new.me.0 }
{
    table.shared.load::<Counts>(seat, COUNT)
}

/// A value load: value `i` of the copy that begins at `start`, which is the next one.
pub(crate) fn load_value(
    table: &LatchTable,
    seat: &mut Seat<(), View>,
    start: usize,
    i: usize,
) -> u64
    requires seat { IsLatchSeatAt table.now.shared.table_id table.now.shared.key
        seat.old.table_id seat.old.me.0 }
    requires loading { IsLoading i seat.old.me.0 }
    requires within { i < length table.now.shared.key.values }
    requires start { start
        ≡ copy_start (length table.now.shared.key.values) (note_of seat.old.me.0) }
    requires low { start ≤ 96 }
    ensures seat { (seat.new.table_id ≡ seat.old.table_id) × (seat.new.me.1 ≡ seat.old.me.1) }
    ensures tells { seat.new.me.0 ≡ has_loaded result seat.old.me.0 }
{
    table.shared.load::<Loads>(seat, start + i)
}

/// A read's last load, of the count again.
pub(crate) fn count_again<A: Attempt>(table: &LatchTable, seat: &mut Seat<(), View>) -> u64
    requires seat { IsLatchSeatAt table.now.shared.table_id table.now.shared.key
        seat.old.table_id seat.old.me.0 }
    requires loading { IsLoading (length table.now.shared.key.values) seat.old.me.0 }
    ensures seat { (seat.new.table_id ≡ seat.old.table_id) × (seat.new.me.1 ≡ seat.old.me.1) }
    ensures tells { TellsCopyFinish A.is_last seat.old.me.0 result seat.new.me.0 }
{
    table.shared.load::<CountsAgain<A>>(seat, COUNT)
}

/// A write's load of the lock word. Where it is not free the try fails.
pub(crate) fn note(table: &LatchTable, seat: &mut Seat<(), View>) -> u64
    requires seat { IsLatchSeatAt table.now.shared.table_id table.now.shared.key
        seat.old.table_id seat.old.me.0 }
    requires still { IsStill seat.old.me.0 }
    ensures seat { (seat.new.table_id ≡ seat.old.table_id) × (seat.new.me.1 ≡ seat.old.me.1) }
    ensures tells { TellsNote seat.old.me.0 result seat.new.me.0 }
{
    table.shared.load::<Notes>(seat, LOCK)
}

/// The take exchange of a write of the values that `B` names.
fn take_by<B: Writing>(
    table: &LatchTable,
    seat: &mut Seat<(), View>,
    noted: u64,
    _values: &[u64],
) -> u64
    requires values { B.values ≡ _values.now }
    requires seat { IsLatchSeatAt table.now.shared.table_id table.now.shared.key
        seat.old.table_id seat.old.me.0 }
    requires noted { IsNoted noted seat.old.me.0 }
    requires long { length _values.now ≡ length table.now.shared.key.values }
    ensures seat { (seat.new.table_id ≡ seat.old.table_id) × (seat.new.me.1 ≡ seat.old.me.1) }
    ensures tells { TellsTake _values.now seat.old.me.0 result seat.new.me.0 }
{
    table
        .shared
        .compare_exchange::<Takes<B>>(seat, LOCK, noted, word(LockWord::Held(0)))
}

/// A take exchange: the lock word, which is held now where it was the free one that was noted.
pub(crate) fn take(table: &LatchTable, seat: &mut Seat<(), View>, noted: u64, values: &[u64]) -> u64
    requires seat { IsLatchSeatAt table.now.shared.table_id table.now.shared.key
        seat.old.table_id seat.old.me.0 }
    requires noted { IsNoted noted seat.old.me.0 }
    requires long { length values.now ≡ length table.now.shared.key.values }
    ensures seat { (seat.new.table_id ≡ seat.old.table_id) × (seat.new.me.1 ≡ seat.old.me.1) }
    ensures tells { TellsTake values.now seat.old.me.0 result seat.new.me.0 }
{
    take_by::<Brand>(table, seat, noted, values)
}

/// A value store: value `i` of the copy that begins at `start`, that of the next count.
pub(crate) fn store_value(
    table: &LatchTable,
    seat: &mut Seat<(), View>,
    start: usize,
    i: usize,
    value: u64,
)
    requires seat { IsLatchSeatAt table.now.shared.table_id table.now.shared.key
        seat.old.table_id seat.old.me.0 }
    requires storing { IsStoring i seat.old.me.0
        × (slice_get (storing_of seat.old.me.0).left 0 ≡ Some value) }
    requires within { i < length table.now.shared.key.values }
    requires start { start
        ≡ copy_start (length table.now.shared.key.values) (note_of seat.old.me.0 + 1) }
    requires low { start ≤ 96 }
    ensures seat { (seat.new.table_id ≡ seat.old.table_id) × (seat.new.me.1 ≡ seat.old.me.1) }
    ensures tells { seat.new.me.0 ≡ has_stored (storing_of seat.old.me.0) seat.old.me.0 }
{
    table.shared.store::<Stores>(seat, start + i, value);
}

/// A write's store of the count, one more: from here on its values are those of the cell.
pub(crate) fn publish(table: &LatchTable, seat: &mut Seat<(), View>, count: u64)
    requires seat { IsLatchSeatAt table.now.shared.table_id table.now.shared.key
        seat.old.table_id seat.old.me.0 }
    requires storing { IsStoring (length table.now.shared.key.values) seat.old.me.0 }
    requires count { count ≡ note_of seat.old.me.0 + 1 }
    ensures seat { (seat.new.table_id ≡ seat.old.table_id) × (seat.new.me.1 ≡ seat.old.me.1) }
    ensures tells { HasPublished seat.old.me.0 seat.new.me.0 }
{
    table.shared.store::<Publishes>(seat, COUNT, count);
}

/// A write lets the lock go: its word is the free one of the count.
pub(crate) fn let_go(table: &LatchTable, seat: &mut Seat<(), View>, count: u64)
    requires seat { IsLatchSeatAt table.now.shared.table_id table.now.shared.key
        seat.old.table_id seat.old.me.0 }
    requires storing { IsStoring 0 seat.old.me.0 }
    requires count { (count ≡ note_of seat.old.me.0) × (count < 2 ^ 62) }
    ensures seat { (seat.new.table_id ≡ seat.old.table_id) × (seat.new.me.1 ≡ seat.old.me.1) }
    ensures tells { HasLetGo seat.old.me.0 seat.new.me.0 }
{
    table
        .shared
        .store::<LetsGo>(seat, LOCK, word(LockWord::Free(count)));
}

/// The seat is split: another one has half of its share.
pub(crate) fn cut(table: &LatchTable, seat: &mut Seat<(), View>) -> Seat<(), View>
    requires seat { IsLatchSeatAt table.now.shared.table_id table.now.shared.key
        seat.old.table_id seat.old.me.0 }
    requires still { IsStill seat.old.me.0 }
    ensures seat { (seat.new.table_id ≡ seat.old.table_id) × (seat.new.me.1 ≡ seat.old.me.1)
        × (seat.new.me.0 ≡ halved seat.old.me.0) }
    ensures other { (result.table_id ≡ seat.old.table_id) × (result.me.1 ≡ [])
        × (result.me.0 ≡ newcomer seat.old.me.0) }
{
    table.shared.split_seat::<Cuts>(seat)
}

/// The seat takes in another, whose view is spent.
pub(crate) fn glue(table: &LatchTable, seat: &mut Seat<(), View>, other: Seat<(), View>)
    requires seat { IsLatchSeatAt table.now.shared.table_id table.now.shared.key
        seat.old.table_id seat.old.me.0 }
    requires other { IsLatchSeatAt table.now.shared.table_id table.now.shared.key
        other.table_id other.me.0 × (other.me.1 ≡ []) }
    requires still { IsStill seat.old.me.0 × IsStill other.me.0 }
    ensures seat { (seat.new.table_id ≡ seat.old.table_id) × (seat.new.me.1 ≡ seat.old.me.1)
        × (seat.new.me.0 ≡ taken_in seat.old.me.0 other.me.0) }
{
    table.shared.join_seat::<Joins>(seat, other);
}

/// The second load of a join, which compares the latest records.
pub(crate) fn compare(table: &LatchTable, seat: &mut Seat<(), View>)
    requires seat { IsLatchSeatAt table.now.shared.table_id table.now.shared.key
        seat.old.table_id seat.old.me.0 }
    requires joining { IsJoining seat.old.me.0 }
    ensures seat { (seat.new.table_id ≡ seat.old.table_id) × (seat.new.me.1 ≡ seat.old.me.1) }
    ensures tells { HasCompared seat.old.me.0 seat.new.me.0 }
{
    let _nothing = table.shared.load::<Compares>(seat, COUNT);
}
