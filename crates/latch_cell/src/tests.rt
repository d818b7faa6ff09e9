//! Latch cells that are read and written.

use crate::{LatchRead, latch};
use lists::Rows;
use solero_cell::CellWrite;
use std::test::*;

#[test]
fn a_pair_is_written_and_read(rt: HostRuntime) -> Result<(), Fail> {
    let values = Rows::from_slice(rt.alloc(), &[1, 2])?;
    let (table, mut seat) = latch(rt.alloc(), &values, 0)?;
    let mut other = seat.split(&table);
    let mut out = [0; 2];
    assert_eq!(rt; seat.read(&table, &mut out), LatchRead::Got(0));
    assert_eq!(rt; out, [1, 2]);
    assert_eq!(rt; other.write(&table, &[3, 4]), CellWrite::Wrote(1));
    assert_eq!(rt; seat.read(&table, &mut out), LatchRead::Got(1));
    assert_eq!(rt; out, [3, 4]);
    assert_eq!(rt; seat.write(&table, &[5, 6]), CellWrite::Wrote(2));
    assert_eq!(rt; other.read_into(&table, &mut out), LatchRead::Got(2));
    assert_eq!(rt; out, [5, 6]);
    other.join(&table, seat);
    assert_eq!(rt; other.latest(), 2);
    Ok(())
}

#[test]
fn the_last_count_stays(rt: HostRuntime) -> Result<(), Fail> {
    let count = (1 << 62) - 1;
    let values = Rows::from_slice(rt.alloc(), &[7, 8])?;
    let (table, mut seat) = latch(rt.alloc(), &values, count)?;
    let mut out = [0; 2];
    assert_eq!(rt; seat.write(&table, &[9, 9]), CellWrite::Full);
    assert_eq!(rt; seat.read(&table, &mut out), LatchRead::Got(count));
    assert_eq!(rt; out, [7, 8]);
    Ok(())
}
