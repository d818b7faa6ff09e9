//! Cells that are read and written.

ghost use Rattle.std.specs.Prelude.{◌≡◌, ◌<◌, ◌≤◌, length};
ghost use Rattle.solero_cell.specs.Calls.{AreSeatsOf, IsTableOfSeat, StaysAtTable};

use crate::{CellRead, CellSeat, CellTable, CellWrite, cell};
use lists::Rows;
use std::process::Abort;
use std::test::*;
use std::thread::{Threads, for_each_mut};

#[test]
fn a_pair_is_written_and_read(rt: HostRuntime) -> Result<(), Fail> {
    let values = Rows::from_slice(rt.alloc(), &[1, 2])?;
    let (table, mut seat) = cell(rt.alloc(), &values, 0)?;
    let mut other = seat.split(&table);
    let mut out = [0; 2];
    assert_eq!(rt; seat.read(&table, &mut out), CellRead::Got(0));
    assert_eq!(rt; out, [1, 2]);
    assert_eq!(rt; other.write(&table, &[3, 4]), CellWrite::Wrote(1));
    assert_eq!(rt; seat.latest(), 0);
    assert_eq!(rt; seat.read(&table, &mut out), CellRead::Got(1));
    assert_eq!(rt; out, [3, 4]);
    assert_eq!(rt; seat.write(&table, &[5, 6]), CellWrite::Wrote(2));
    assert_eq!(rt; other.latest(), 1);
    other.join(&table, seat);
    assert_eq!(rt; other.latest(), 2);
    Ok(())
}

#[test]
fn the_last_count_stays(rt: HostRuntime) -> Result<(), Fail> {
    let count = (1 << 62) - 1;
    let values = Rows::from_slice(rt.alloc(), &[7, 8])?;
    let (table, mut seat) = cell(rt.alloc(), &values, count)?;
    let mut out = [0; 2];
    assert_eq!(rt; seat.read(&table, &mut out), CellRead::Got(count));
    assert_eq!(rt; out, [7, 8]);
    assert_eq!(rt; seat.write(&table, &[9, 9]), CellWrite::Full);
    out = [0; 2];
    assert_eq!(rt; seat.read(&table, &mut out), CellRead::Got(count));
    assert_eq!(rt; out, [7, 8]);
    Ok(())
}

/// A write of two equal words, and a read; each may fail.
fn write_and_read(rt: &impl Abort, seat: &mut CellSeat, table: &CellTable, value: u64)
    requires table { IsTableOfSeat table.now.shared.table_id table.now.shared.key seat.old }
    requires two { length seat.old.view.opening.values ≡ 2 }
    ensures { StaysAtTable seat.old seat.new }
{
    let _may_fail = seat.write(table, &[value, value]);
    let mut out = [0; 2];
    if let CellRead::Got(_) = seat.read(table, &mut out) {
        assert_eq!(rt; out[0], out[1]);
    }
}

/// A hundred of each.
fn work(rt: &impl Abort, seat: &mut CellSeat, table: &CellTable, number: usize)
    requires table { IsTableOfSeat table.now.shared.table_id table.now.shared.key seat.old }
    requires two { length seat.old.view.opening.values ≡ 2 }
    requires small { number < 2 }
    ensures { StaysAtTable seat.old seat.new }
{
    for i in 0..100 {
        write_and_read(rt, seat, table, number as u64 * 100 + i);
    }
}

/// Each seat on a thread of its own.
fn work_apart<R: Abort + Threads + Sync>(rt: &R, seats: &mut [CellSeat], table: &CellTable)
    requires seats { AreSeatsOf table.now.shared.table_id table.now.shared.key seats.old }
    requires two { (length seats.old ≡ 2) × (length table.now.shared.key.values ≡ 2) }
    ensures seats { AreSeatsOf table.now.shared.table_id table.now.shared.key seats.new }
    ensures count { length seats.new ≡ length seats.old }
{
    for_each_mut(
        rt,
        seats,
        2,
        &|i: usize, seat: &mut CellSeat|
            requires { (i < 2)
                × IsTableOfSeat table.now.shared.table_id table.now.shared.key seat.now
                × (length seat.now.view.opening.values ≡ 2) }
            ensures { StaysAtTable seat.entry.now seat.exit.now }
        { work(rt, seat, table, i) },
    );
}

/// Two seats, each on a thread of its own, which are joined then.
fn work_in_two<R: Abort + Threads + Sync>(rt: &R, seat: &mut CellSeat, table: &CellTable)
    requires table { IsTableOfSeat table.now.shared.table_id table.now.shared.key seat.old }
    requires two { length table.now.shared.key.values ≡ 2 }
    ensures { StaysAtTable seat.old seat.new }
{
    let mut seats = [seat.split(table), seat.split(table)];
    work_apart(rt, &mut seats, table);
    let [first, second] = seats;
    seat.join(table, first);
    seat.join(table, second);
}

#[test]
fn two_seats_on_two_threads_read_whole_pairs(rt: HostRuntime) -> Result<(), Fail> {
    let values = Rows::from_slice(rt.alloc(), &[0, 0])?;
    let (table, mut seat) = cell(rt.alloc(), &values, 0)?;
    work_in_two(&rt, &mut seat, &table);
    let latest = seat.latest();
    assert!(rt; latest <= 200);
    let mut out = [1, 2];
    assert_eq!(rt; seat.read(&table, &mut out), CellRead::Got(latest));
    assert_eq!(rt; out[0], out[1]);
    Ok(())
}
