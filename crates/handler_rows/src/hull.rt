//! Bounds on some handler rows that follow one another.

ghost use Rattle.std.specs.Prelude.{◌≡◌, ◌<◌, drop, length, slice_get, Some, IfOk};
ghost use Rattle.std.specs.List.{AllByRecursion};
ghost use Rattle.jvm_types.specs.Verifying.{covers};
ghost use Rattle.handler_rows.specs.HandlerRows.{is_picked};
ghost use Rattle.handler_rows.specs.Hulls.{IsWithin, IsWider, IsHull, AreHulls, Bounds, may_have};

use jvm_types::Row;
use std::alloc::{AllocError, Global};

/// How many rows one hull bounds at most.
const TOGETHER: usize = 64;

/// Bounds on so many rows that follow one another: the least and the greatest pc at which one
/// begins, and the greatest end.
#[derive(Clone, Copy, Debug)]
pub struct Hull {
    count: usize,
    first: u32,
    last: u32,
    end: u32,
}

/// Whether a handler row covers a pc (JVMS 2.10).
pub fn covers(pc: u32, row: &Row) -> bool
    ensures { result ≡ covers pc row.now }
{
    row.start <= pc && pc < row.end
}

/// Whether a row covers a pc, and begins at another or behind it.
pub fn is_picked(pc: u32, from: u32, row: &Row) -> bool
    ensures { result ≡ is_picked pc from row.now }
{
    covers(pc, row) && from <= row.start
}

/// The bounds, and the row too.
fn widened(hull: Hull, row: &Row) -> Hull
    ensures within { IsWithin result row.now }
    ensures wider { IsWider hull result }
{
    Hull {
        count: hull.count,
        first: hull.first.min(row.start),
        last: hull.last.max(row.start),
        end: hull.end.max(row.end),
    }
}

fn hull_of(rows: &[Row]) -> Hull
    ensures { Bounds rows.now result }
{
    let mut hull = Hull {
        count: rows.len(),
        first: u32::MAX,
        last: 0,
        end: 0,
    };
    for row in rows {
        hull = widened(hull, row);
    }
    hull
}

/// The bounds on the rows from this number on.
fn hull_at(rows: &[Row], k: usize) -> Hull
    requires { k < length rows.now }
    ensures { IsHull (drop k rows.now) result }
{
    let rest = &rows[k..];
    hull_of(&rest[..rest.len().min(TOGETHER)])
}

/// The bounds on the rows from each one on.
pub fn hulls_of(alloc: Global, rows: &[Row]) -> Result<Vec<Hull>, AllocError>
    ensures { IfOk result (λ hulls. AreHulls rows.now hulls.items) }
{
    let mut hulls = Vec::with_capacity(alloc, rows.len())?;
    for k in 0..rows.len() {
        hulls.push(hull_at(rows, k))?;
    }
    Ok(hulls)
}

pub fn hull_of_number(hulls: &[Hull], k: usize) -> Hull
    requires { k < length hulls.now }
    ensures { slice_get hulls.now k ≡ Some result }
{
    hulls[k]
}

impl Hull {
    pub fn count(&self) -> usize
        ensures { result ≡ self.now.count }
    {
        self.count
    }

    /// Whether some row within the bounds can cover a pc, and begin at another or behind it.
    pub fn may_have(&self, pc: u32, from: u32) -> bool
        ensures { result ≡ may_have self.now pc from }
    {
        self.first <= pc && from <= self.last && pc < self.end
    }
}
