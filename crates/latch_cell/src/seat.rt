//! A seat at a latch cell: it reads and writes.

ghost use Rattle.std.specs.Prelude.{◌≡◌, ◌<◌, ◌≤◌, ◌+◌, ◌*◌, ◌^◌, [], ◌∷◌, ◌++◌, length, IfOk};
ghost use Rattle.solero_cell.specs.Calls.{IsTableOfSeat};
ghost use Rattle.solero_cell.specs.CellViews.{first_view, halved, joined_views, newcomer};
ghost use Rattle.solero_cell.specs.CellViews.{record_of};
ghost use Rattle.solero_cell.specs.Histories.{AreOfOne};
ghost use Rattle.latch_cell.specs.Copies.{copy_gap};
ghost use Rattle.latch_cell.specs.LatchCalls.{IsLatchRead, IsLatchTried, IsLatchWritten};

use crate::answers::LatchRead;
use crate::rule::LatchTable;
use crate::{read, steps, write};
use atomic_table::Seat;
use lists::Rows;
use lock_word::{LockWord, word};
use solero_cell::{CellWrite, MOST_VALUES, Record, View, copy_values};
use std::alloc::{AllocError, Global};
use std::marker::Model;

/// A seat at a latch cell, from which one thread reads and writes it. Contracts see its table and
/// what it knows.
///
/// None of its methods waits for anyone or takes memory; all of them return.
#[derive(Drop)]
pub struct LatchSeat {
    seat: Seat<(), View>,
    // the count of the latest record
    latest: u64,
}

impl Model for LatchSeat {
    ghost use Rattle.std.specs.Prelude.{◌≡◌, []};
    ghost use Rattle.solero_cell.specs.Calls.{Seated};
    ghost use Rattle.latch_cell.specs.LatchCalls.{IsLatchSeat};

    ghost Value = { Seated };

    ghost view = { λ s. record { table_id = s.seat.table_id; view = s.seat.me.0 } };

    ghost invariant = { λ s.
        IsLatchSeat (record { table_id = s.seat.table_id; view = s.seat.me.0 })
        × (s.seat.me.1 ≡ []) × (s.latest ≡ s.seat.me.0.latest.count) };
}

/// A table with these words, and its first seat; `_gap` is what stands before each copy.
fn opened(
    alloc: Global,
    words: &[u64],
    opening: &Record,
    _gap: &[u64],
) -> Result<(LatchTable, Seat<(), View>), AllocError>
    requires words { words.now ≡ 4 * opening.now.count ∷ opening.now.count
        ∷ _gap.now ++ opening.now.values ++ _gap.now ++ opening.now.values }
    requires gap { length _gap.now ≡ copy_gap (length opening.now.values) }
    ensures table { IfOk result (λ t.
        (t.0.shared.key ≡ opening.now) × (t.0.shared.table_id.words ≡ length words.now)
        × (t.0.shared.table_id.slots ≡ 0)) }
    ensures seat { IfOk result
        (λ t. (t.1.table_id ≡ t.0.shared.table_id) × (t.1.me ≡ (first_view opening.now, []))) }
{
    LatchTable::of_words(alloc, words, opening)
}

/// A latch cell of 1 to 64 values, with this count, and its first seat. Its error is want of
/// memory.
pub fn latch(
    alloc: Global,
    values: &Rows<u64>,
    count: u64,
) -> Result<(LatchTable, LatchSeat), AllocError>
    requires values { (0 < length values.now) × (length values.now ≤ 64) }
    requires count { count < 2 ^ 62 }
    ensures table { IfOk result (λ t. IsTableOfSeat t.0.shared.table_id t.0.shared.key t.1) }
    ensures first { IfOk result (λ t. t.1.view ≡ first_view (record_of count values.now)) }
{
    let mut words = Rows::from_slice(alloc, &[word(LockWord::Free(count)), count])?;
    let gap = &[0; steps::GAP][..steps::copy_gap(values.len())];
    words.extend_from_slice(gap)?;
    words.extend_from_slice(values.as_slice())?;
    words.extend_from_slice(gap)?;
    words.extend_from_slice(values.as_slice())?;
    let opening = Record {
        count,
        values: Rows::from_slice(alloc, values.as_slice())?,
    };
    let (table, seat) = opened(alloc, words.as_slice(), &opening, gap)?;
    Ok((
        table,
        LatchSeat {
            seat,
            latest: count,
        },
    ))
}

impl LatchSeat {
    /// Reads the values of one count, all of them, into `out`.
    ///
    /// `Got` says their count, which is no less than that of the seat's latest record, and is that
    /// of the cell at the end of the read. After the other answer `out` is as it was: in each of
    /// two attempts a whole write ended.
    pub fn read(&mut self, table: &LatchTable, out: &mut [u64]) -> LatchRead
        requires table { IsTableOfSeat table.now.shared.table_id table.now.shared.key self.old }
        requires out { length out.old ≡ length self.old.view.opening.values }
        ensures table { (self.new.table_id ≡ self.old.table_id)
            × (self.new.view.opening ≡ self.old.view.opening) }
        ensures read { IsLatchRead self.old.view out.old result self.new.view out.new }
    {
        let _count = self.latest;
        match out.len() {
            1 => self.read_few::<1>(table, out),
            2 => self.read_few::<2>(table, out),
            3 => self.read_few::<3>(table, out),
            4 => self.read_few::<4>(table, out),
            5 => self.read_few::<5>(table, out),
            6 => self.read_few::<6>(table, out),
            7 => self.read_few::<7>(table, out),
            8 => self.read_few::<8>(table, out),
            _ => self.read_many(table, out),
        }
    }

    /// Reads the values of one count, all of them, straight into `out`, which takes less time.
    ///
    /// After another answer than `Got` the words of `out` are any.
    pub fn read_into(&mut self, table: &LatchTable, out: &mut [u64]) -> LatchRead
        requires table { IsTableOfSeat table.now.shared.table_id table.now.shared.key self.old }
        requires out { length out.old ≡ length self.old.view.opening.values }
        ensures table { (self.new.table_id ≡ self.old.table_id)
            × (self.new.view.opening ≡ self.old.view.opening) }
        ensures long { length out.new ≡ length out.old }
        ensures read { IsLatchTried self.old.view out.new result self.new.view }
    {
        let answer = read::read(table, &mut self.seat, out);
        if let LatchRead::Got(count) = answer {
            self.latest = count;
        }
        answer
    }

    /// A read of just so many values, whose room is of their size, so that registers can be it.
    fn read_few<const N: usize>(&mut self, table: &LatchTable, out: &mut [u64]) -> LatchRead
        requires table { IsTableOfSeat table.now.shared.table_id table.now.shared.key self.old }
        requires out { length out.old ≡ length self.old.view.opening.values }
        requires few { length out.old ≡ N }
        ensures table { (self.new.table_id ≡ self.old.table_id)
            × (self.new.view.opening ≡ self.old.view.opening) }
        ensures read { IsLatchRead self.old.view out.old result self.new.view out.new }
    {
        let mut room = [0; N];
        let answer = read::read(table, &mut self.seat, &mut room);
        if let LatchRead::Got(count) = answer {
            self.latest = count;
            copy_values(out, &room);
        }
        answer
    }

    /// A read of up to as many values as a cell may have, in a call of its own.
    #[inline(never)]
    fn read_many(&mut self, table: &LatchTable, out: &mut [u64]) -> LatchRead
        requires table { IsTableOfSeat table.now.shared.table_id table.now.shared.key self.old }
        requires out { length out.old ≡ length self.old.view.opening.values }
        requires many { length out.old ≤ 64 }
        ensures table { (self.new.table_id ≡ self.old.table_id)
            × (self.new.view.opening ≡ self.old.view.opening) }
        ensures read { IsLatchRead self.old.view out.old result self.new.view out.new }
    {
        let mut room = [0; MOST_VALUES];
        let values = &mut room[..out.len()];
        let answer = read::read(table, &mut self.seat, values);
        if let LatchRead::Got(count) = answer {
            self.latest = count;
            out.copy_from_slice(values);
        }
        answer
    }

    /// Writes all values, under the next count.
    ///
    /// `Wrote` says that count. After the other answers nothing was written: another write was
    /// under way or came first, or the cell has its last count.
    pub fn write(&mut self, table: &LatchTable, values: &[u64]) -> CellWrite
        requires table { IsTableOfSeat table.now.shared.table_id table.now.shared.key self.old }
        requires values { length values.now ≡ length self.old.view.opening.values }
        ensures table { (self.new.table_id ≡ self.old.table_id)
            × (self.new.view.opening ≡ self.old.view.opening) }
        ensures written { IsLatchWritten self.old.view values.now result self.new.view }
    {
        let answer = write::write(table, &mut self.seat, values);
        if let CellWrite::Wrote(count) = answer {
            self.latest = count;
        }
        answer
    }

    /// A seat of the same cell for another thread. It has this seat's latest record and no writes,
    /// and half of its share.
    pub fn split(&mut self, table: &LatchTable) -> LatchSeat
        requires table { IsTableOfSeat table.now.shared.table_id table.now.shared.key self.old }
        ensures kept { (self.new.table_id ≡ self.old.table_id)
            × (self.new.view ≡ halved self.old.view) }
        ensures made { (result.table_id ≡ self.old.table_id)
            × (result.view ≡ newcomer self.old.view) }
    {
        let seat = steps::cut(table, &mut self.seat);
        LatchSeat {
            seat,
            latest: self.latest,
        }
    }

    /// Takes in the writes, the numbers and the share of another seat, and keeps the later of both
    /// latest records. The records of both are of one history: two of the same count have the same
    /// values.
    pub fn join(&mut self, table: &LatchTable, other: LatchSeat)
        requires table { IsTableOfSeat table.now.shared.table_id table.now.shared.key self.old }
        requires other { IsTableOfSeat table.now.shared.table_id table.now.shared.key other }
        ensures joined { (self.new.table_id ≡ self.old.table_id)
            × (self.new.view ≡ joined_views self.old.view other.view) }
        ensures one { AreOfOne self.old.view other.view }
    {
        let LatchSeat { seat, latest } = other;
        steps::glue(table, &mut self.seat, seat);
        steps::compare(table, &mut self.seat);
        if self.latest < latest {
            self.latest = latest;
        }
    }

    /// The count of the seat's latest record.
    pub fn latest(&self) -> u64
        ensures { result ≡ self.now.view.latest.count }
    {
        self.latest
    }
}
