//! A seat of the cell, beside what its worker came to.

ghost use Rattle.std.specs.Prelude.{◌≡◌, ◌+◌, ◌<◌, ◌≤◌, ◌^◌, MatchBool, length, false};
ghost use Rattle.solero_cell.specs.Calls.{IsTableOfSeat};
ghost use Rattle.solero_cell.specs.CellViews.{joined_views};
ghost use Rattle.cell_runner.specs.HandsOfCell.{HasEnded, HasFew, HasJoined, HasStopped};
ghost use Rattle.cell_runner.specs.HandsOfCell.{IsCountedHand, HasNotEnded, AreRoundsOver};
ghost use Rattle.cell_runner.specs.HandsOfCell.{IsSameSeat, IsTaskTried, tallies_added, task_made};

use crate::tally::Tally;
use solero_cell::{CellRead, CellSeat, CellTable, CellWrite, MOST_VALUES};
use std::thread::yield_now;

/// What a worker does in each round, one after the other.
#[derive(Clone, Copy)]
pub(crate) enum Task {
    Write,
    Read,
}

/// What one try came to.
pub(crate) enum Tried {
    Done,
    Failed,
    /// The cell has its last count.
    Full,
}

/// A seat, and what the workers came to whose seats it has taken in.
#[derive(Drop)]
pub(crate) struct Hand {
    pub(crate) seat: CellSeat,
    pub(crate) tally: Tally,
    /// The seat's last note found the cell full.
    pub(crate) is_full: bool,
}

impl Hand {
    /// A seat of a worker that has done nothing yet.
    pub(crate) fn of(seat: CellSeat) -> Hand
        ensures { result
            ≡ record {
              seat = seat;
              tally = record { writes = 0; reads = 0; stopped = 0 };
              is_full = false;
            } }
    {
        let tally = Tally {
            writes: 0,
            reads: 0,
            stopped: 0,
        };
        Hand {
            seat,
            tally,
            is_full: false,
        }
    }

    /// One try at a write.
    fn try_write(&mut self, table: &CellTable, values: &[u64]) -> Tried
        requires table { IsTableOfSeat table.now.shared.table_id table.now.shared.key
            self.old.seat }
        requires values { length values.now ≡ length self.old.seat.view.opening.values }
        requires going { HasNotEnded self.old }
        requires counted { IsCountedHand self.old }
        requires few { self.old.tally.writes ≤ 1000 }
        ensures same { IsSameSeat self.old.seat self.new.seat }
        ensures counted { IsCountedHand self.new }
        ensures tried { IsTaskTried Task.Write self.old result self.new }
    {
        match self.seat.write(table, values) {
            CellWrite::Wrote(_) => {
                self.tally.writes += 1;
                Tried::Done
            }
            CellWrite::NotFree(_) | CellWrite::Lost { .. } => Tried::Failed,
            CellWrite::Full => {
                self.is_full = true;
                Tried::Full
            }
        }
    }

    /// One try at a read.
    fn try_read(&mut self, table: &CellTable) -> Tried
        requires table { IsTableOfSeat table.now.shared.table_id table.now.shared.key
            self.old.seat }
        requires values { length self.old.seat.view.opening.values ≡ 64 }
        requires going { HasNotEnded self.old }
        requires counted { IsCountedHand self.old }
        requires few { self.old.tally.reads ≤ 1000 }
        ensures same { IsSameSeat self.old.seat self.new.seat }
        ensures counted { IsCountedHand self.new }
        ensures tried { IsTaskTried Task.Read self.old result self.new }
    {
        match self.seat.read(table, &mut [0; MOST_VALUES]) {
            CellRead::Got(_) => {
                self.tally.reads += 1;
                Tried::Done
            }
            CellRead::NotFree(_) | CellRead::Changed { .. } => Tried::Failed,
        }
    }

    /// One try at a task.
    fn attempt(&mut self, table: &CellTable, task: Task, values: &[u64]) -> Tried
        requires table { IsTableOfSeat table.now.shared.table_id table.now.shared.key
            self.old.seat }
        requires values { (length values.now ≡ 64)
            × (length self.old.seat.view.opening.values ≡ 64) }
        requires going { HasNotEnded self.old }
        requires counted { IsCountedHand self.old }
        requires few { (self.old.tally.writes ≤ 1000) × (self.old.tally.reads ≤ 1000) }
        ensures same { IsSameSeat self.old.seat self.new.seat }
        ensures counted { IsCountedHand self.new }
        ensures tried { IsTaskTried task self.old result self.new }
    {
        match task {
            Task::Write => self.try_write(table, values),
            Task::Read => self.try_read(table),
        }
    }

    /// Tries at a task until one succeeds: `false` where the worker ends, since `turns` tries in a
    /// row have failed or the cell is full.
    fn succeed(&mut self, table: &CellTable, task: Task, values: &[u64], turns: u32) -> bool
        requires table { IsTableOfSeat table.now.shared.table_id table.now.shared.key
            self.old.seat }
        requires values { (length values.now ≡ 64)
            × (length self.old.seat.view.opening.values ≡ 64) }
        requires going { HasNotEnded self.old }
        requires counted { IsCountedHand self.old }
        requires few { (self.old.tally.writes ≤ 1000) × (self.old.tally.reads ≤ 1000) }
        ensures same { IsSameSeat self.old.seat self.new.seat }
        ensures counted { IsCountedHand self.new }
        ensures stopped { HasStopped turns self.new }
        ensures made { MatchBool result
            (HasNotEnded self.new × (self.new.tally ≡ task_made task self.old.tally))
            (HasEnded self.old.tally.writes self.old.tally.reads self.new) }
    {
        for _ in 0..turns {
            match self.attempt(table, task, values) {
                Tried::Done => return true,
                Tried::Failed => yield_now(),
                Tried::Full => return false,
            }
        }
        self.tally.stopped = 1;
        false
    }

    /// A write and a read: `false` where the worker ends before both are made.
    fn round(&mut self, table: &CellTable, values: &[u64], turns: u32) -> bool
        requires table { IsTableOfSeat table.now.shared.table_id table.now.shared.key
            self.old.seat }
        requires values { (length values.now ≡ 64)
            × (length self.old.seat.view.opening.values ≡ 64) }
        requires going { HasNotEnded self.old }
        requires counted { IsCountedHand self.old }
        requires few { (self.old.tally.writes < 1000) × (self.old.tally.reads ≤ 1000) }
        ensures same { IsSameSeat self.old.seat self.new.seat }
        ensures counted { IsCountedHand self.new }
        ensures stopped { HasStopped turns self.new }
        ensures made { MatchBool result (HasNotEnded self.new
            × (self.new.tally ≡ task_made Task.Read (task_made Task.Write self.old.tally)))
            (HasEnded (self.old.tally.writes + 1) self.old.tally.reads self.new) }
    {
        if !self.succeed(table, Task::Write, values, turns) {
            return false;
        }
        self.succeed(table, Task::Read, values, turns)
    }

    /// The rounds of a worker, which writes its number.
    pub(crate) fn work(&mut self, table: &CellTable, number: u8, rounds: u32, turns: u32)
        requires table { IsTableOfSeat table.now.shared.table_id table.now.shared.key
            self.old.seat }
        requires values { length self.old.seat.view.opening.values ≡ 64 }
        requires going { HasNotEnded self.old }
        requires none { (self.old.tally.writes ≡ 0) × (self.old.tally.reads ≡ 0) }
        requires counted { IsCountedHand self.old }
        requires few { rounds ≤ 1000 }
        ensures same { IsSameSeat self.old.seat self.new.seat }
        ensures counted { IsCountedHand self.new }
        ensures stopped { HasStopped turns self.new }
        ensures over { AreRoundsOver 1 rounds self.new }
    {
        let values = [number as u64; MOST_VALUES];
        for _ in 0..rounds {
            if !self.round(table, &values, turns) {
                return;
            }
        }
    }

    /// Takes in the hand of others.
    fn take_in(mut self, table: &CellTable, other: Hand) -> Hand
        requires table { IsTableOfSeat table.now.shared.table_id table.now.shared.key self.seat }
        requires other { IsTableOfSeat table.now.shared.table_id table.now.shared.key other.seat }
        requires few { HasFew self.tally × HasFew other.tally }
        ensures seat { (result.seat.table_id ≡ self.seat.table_id)
            × (result.seat.view ≡ joined_views self.seat.view other.seat.view) }
        ensures tally { result.tally ≡ tallies_added self.tally other.tally }
        ensures full { result.is_full ≡ self.is_full }
    {
        let Hand { seat, tally, .. } = other;
        self.seat.join(table, seat);
        self.tally.writes += tally.writes;
        self.tally.reads += tally.reads;
        self.tally.stopped += tally.stopped;
        self
    }

    /// Takes in the hand of others. A join keeps one of two notes: that of the seat which found the
    /// cell full, where one did.
    pub(crate) fn join(self, table: &CellTable, other: Hand) -> Hand
        requires table { IsTableOfSeat table.now.shared.table_id table.now.shared.key self.seat }
        requires other { IsTableOfSeat table.now.shared.table_id table.now.shared.key other.seat }
        requires counted { IsCountedHand self × IsCountedHand other }
        requires few { HasFew self.tally × HasFew other.tally }
        ensures { HasJoined self other result }
    {
        if other.is_full {
            other.take_in(table, self)
        } else {
            self.take_in(table, other)
        }
    }
}
