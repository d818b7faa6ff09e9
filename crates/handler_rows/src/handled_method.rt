//! Methods with the table of their pcs and the bounds on their handler rows.

ghost use Rattle.std.specs.Prelude.{◌≡◌, ◌<◌, [], drop, length, IfOk};
ghost use Rattle.std.specs.List.{list_any};
ghost use Rattle.std.specs.Option.{IfSome, IfNone};
ghost use Rattle.jvm_types.specs.Verifying.{covers, new_class, IsLaidOut};
ghost use Rattle.code_table.specs.PcTables.{number_at, Ascend};
ghost use Rattle.handler_rows.specs.HandlerRows.{picked, IsNextPicked, AreRowsPassed};
ghost use Rattle.handler_rows.specs.Hulls.{IsHull};

use crate::hull::{Hull, hull_of_number, hulls_of, is_picked};
use code_table::IndexedMethod;
use jvm_types::{MethodInfo, Row};
use std::alloc::{AllocError, Global};
use std::marker::Model;

/// A method whose instructions follow one another, with the number of the instruction at each pc,
/// and bounds on its handler rows. Contracts see the method.
#[derive(Debug, Drop)]
pub struct HandledMethod<'a> {
    indexed: IndexedMethod<'a>,
    hulls: Vec<Hull>,
}

impl<'a> Model for HandledMethod<'a> {
    ghost use Rattle.jvm_types.specs.declared.program.MethodInfo.{MethodInfo as Method};
    ghost use Rattle.handler_rows.specs.Hulls.{AreHulls};

    ghost Value = { Method };

    ghost view = { λ m. m.indexed };

    ghost invariant = { λ m. AreHulls m.indexed.rows m.hulls.items };
}

impl<'a> HandledMethod<'a> {
    pub fn of(alloc: Global, method: &'a MethodInfo) -> Result<HandledMethod<'a>, AllocError>
        requires { IsLaidOut method.now }
        ensures { IfOk result (λ m. m ≡ method.now) }
    {
        let hulls = hulls_of(alloc, method.rows.as_slice())?;
        let indexed = IndexedMethod::of(alloc, method)?;
        Ok(HandledMethod { indexed, hulls })
    }

    /// The method. Its code is laid out, and the pcs ascend.
    pub fn method(&self) -> &'a MethodInfo
        ensures is { result.now ≡ self.now }
        ensures laid { IsLaidOut self.now }
        ensures ascend { Ascend 0 self.now.code }
    {
        self.indexed.method()
    }

    /// The number of the instruction at a pc, where one begins there.
    pub fn find(&self, pc: u32) -> Option<usize>
        ensures { result ≡ number_at self.now.code pc }
    {
        self.indexed.find(pc)
    }

    /// The class that the `new` at a pc names.
    pub fn new_class(&self, pc: u32) -> Option<u16>
        ensures { result ≡ new_class self.now.code self.now.targets pc }
    {
        self.indexed.new_class(pc)
    }

    /// Tells that the code is laid out, and that its pcs ascend.
    pub fn laid_out(&self)
        ensures laid { IsLaidOut self.now }
        ensures ascend { Ascend 0 self.now.code }
    {
        self.indexed.laid_out();
    }

    /// The bounds on the rows from this number on.
    fn hull(&self, k: usize) -> Hull
        requires { k < length self.now.rows }
        ensures { IsHull (drop k self.now.rows) result }
    {
        hull_of_number(&self.hulls, k)
    }

    /// How many rows from this number on do not cover the pc, or begin before `from`: 0 where this
    /// one does both.
    fn passed(&self, k: usize, pc: u32, from: u32) -> usize
        requires { k < length self.now.rows }
        ensures { AreRowsPassed pc from (drop k self.now.rows) result }
    {
        if is_picked(pc, from, &self.method().rows.as_slice()[k]) {
            return 0;
        }
        let hull = self.hull(k);
        if !hull.may_have(pc, from) {
            return hull.count();
        }
        1
    }

    /// The first row, from this number on, that covers a pc and begins at `from` or behind it, with
    /// the number of the row behind it. Rows far from the pc are passed by sixty-four.
    pub fn next_row(&self, first: usize, pc: u32, from: u32) -> Option<(usize, &'a Row)>
        ensures none { IfNone result (picked pc from (drop first self.now.rows) ≡ []) }
        ensures some { IfSome result
            (λ found. IsNextPicked pc from self.now.rows first found.0 found.1.now) }
    {
        let rows = self.method().rows.as_slice();
        let mut k = first;
        while k < rows.len() {
            match self.passed(k, pc, from) {
                0 => return Some((k + 1, &rows[k])),
                passed => k += passed,
            }
        }
        None
    }

    /// How many steps take those who search for all rows that cover a pc and begin at `from` or
    /// behind it, or for the first such row, besides one for each row that is found. No clause says
    /// how many: it serves to bound what searches do.
    pub fn steps(&self, pc: u32, from: u32, to_first: bool) -> usize {
        let rows = self.method().rows.as_slice();
        let mut steps: usize = 0;
        let mut k: usize = 0;
        while k < rows.len() {
            let passed = self.passed(k, pc, from);
            if passed > 0 {
                steps = steps.saturating_add(1);
            } else if to_first {
                return steps;
            }
            k = k.saturating_add(passed.max(1));
        }
        steps
    }

    /// Whether some handler row covers a pc.
    pub fn is_covered(&self, pc: u32) -> bool
        ensures { result ≡ list_any (covers pc) self.now.rows }
    {
        self.next_row(0, pc, 0).is_some()
    }
}
