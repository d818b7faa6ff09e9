//! A seat of the latch cell, and its part of the cell.

ghost use Rattle.std.specs.Prelude.{◌≡◌, ◌<◌, ◌≤◌, ◌^◌, length, IfOk};
ghost use Rattle.std.specs.Arc.{arc_value};
ghost use Rattle.cell_c.specs.Reads.{IsLatchReadInto};
ghost use Rattle.solero_cell.specs.Calls.{IsTableOfSeat, StaysAtTable};
ghost use Rattle.latch_cell.specs.LatchCalls.{IsLatchRead, IsLatchWritten};
ghost use Rattle.solero_cell.specs.CellViews.{first_view, halved, newcomer, record_of};

use latch_cell::{LatchRead, LatchSeat, LatchTable, latch};
use lists::Rows;
use solero_cell::CellWrite;
use std::alloc::{AllocError, Global};
use std::sync::Arc;

/// A seat, the table of its cell, and how many values that has.
#[derive(Drop)]
pub struct LatchHolder {
    table: Arc<LatchTable, Global>,
    pub(crate) seat: LatchSeat,
    len: usize,
    ghost one: { IsTableOfSeat (arc_value table).shared.table_id
        (arc_value table).shared.key seat },
    ghost long: { len ≡ length seat.view.opening.values },
}

impl LatchHolder {
    /// A new cell's first seat.
    pub(crate) fn open(alloc: Global, values: &[u64], count: u64) -> Result<LatchHolder, AllocError>
        requires values { (0 < length values.now) × (length values.now ≤ 64) }
        requires count { count < 2 ^ 62 }
        ensures { IfOk result (λ h. h.seat.view ≡ first_view (record_of count values.now)) }
    {
        let rows = Rows::from_slice(alloc, values)?;
        let (table, seat) = latch(alloc, &rows, count)?;
        let table = Arc::new(alloc, table)?;
        let len = values.len();
        Ok(LatchHolder { table, seat, len })
    }

    /// How many values its cell has.
    pub(crate) fn len(&self) -> usize
        ensures { result ≡ length self.now.seat.view.opening.values }
    {
        self.len
    }

    /// The count of its latest record.
    pub(crate) fn latest(&self) -> u64
        ensures { result ≡ self.now.seat.view.latest.count }
    {
        self.seat.latest()
    }

    /// One more seat.
    pub(crate) fn split(&mut self) -> Result<LatchHolder, AllocError>
        ensures one { self.new.seat.table_id ≡ self.old.seat.table_id }
        ensures kept { IfOk result (λ h. self.new.seat.view ≡ halved self.old.seat.view) }
        ensures made { IfOk result (λ h. (h.seat.table_id ≡ self.old.seat.table_id)
            × (h.seat.view ≡ newcomer self.old.seat.view)) }
    {
        let table = Arc::try_clone(&self.table)?;
        let seat = self.seat.split(&table);
        let len = self.len;
        Ok(LatchHolder { table, seat, len })
    }

    /// A read.
    pub(crate) fn read(&mut self, out: &mut [u64]) -> LatchRead
        requires { length out.old ≡ length self.old.seat.view.opening.values }
        ensures read { IsLatchRead self.old.seat.view out.old result self.new.seat.view out.new }
        ensures one { StaysAtTable self.old.seat self.new.seat }
    {
        self.seat.read(&self.table, out)
    }

    /// A read straight into `out`.
    pub(crate) fn read_into(&mut self, out: &mut [u64]) -> LatchRead
        requires { length out.old ≡ length self.old.seat.view.opening.values }
        ensures read { IsLatchReadInto self.old.seat.view out.old result self.new.seat.view
            out.new }
        ensures one { StaysAtTable self.old.seat self.new.seat }
    {
        self.seat.read_into(&self.table, out)
    }

    /// A write.
    pub(crate) fn write(&mut self, values: &[u64]) -> CellWrite
        requires { length values.now ≡ length self.old.seat.view.opening.values }
        ensures written { IsLatchWritten self.old.seat.view values.now result self.new.seat.view }
        ensures one { StaysAtTable self.old.seat self.new.seat }
    {
        self.seat.write(&self.table, values)
    }
}
