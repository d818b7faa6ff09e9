//! How many instructions the methods of compiled classes reach.

ghost use Rattle.std.specs.Prelude.{◌<◌, ◌≤◌, length};

use crate::files::one;
use class_runner::{FileError, load_program};
use jvm_types::limits::LEAST_HEAP;
use jvm_types::{Bytes, Rows};
use std::alloc::Global;
use std::process::Abort;
use std::test::*;
use test_classes::{adds, calls, changed, counts_up};

/// The reach of the method of that number, or 0 where there is none.
fn reach_of(alloc: Global, files: &Rows<Bytes>, method: u32) -> Result<u32, FileError>
    requires some { 0 < length files.now }
    requires few { length files.now ≤ 64 }
{
    let program = load_program(alloc, files, LEAST_HEAP, 0)?;
    if method as usize >= program.program().methods.len() {
        return Ok(0);
    }
    let count = program.reach(alloc, method)?;
    Ok(count)
}

/// Compares the reach of a method of a class.
fn check_reach(
    rt: &(impl Abort + AllocGlobal),
    hex: &str,
    method: u32,
    wanted: u32,
) -> Result<(), FileError> {
    let alloc = rt.alloc();
    let files = one(alloc, changed(alloc, hex, &[])?)?;
    let count = reach_of(alloc, &files, method)?;
    assert_eq!(rt; count, wanted);
    Ok(())
}

#[test]
fn each_method_counts_once(rt: HostRuntime) -> Result<(), Fail> {
    check_reach(&rt, adds(), 0, 6)?;
    // all of a block and of its handler
    check_reach(&rt, counts_up(), 1, 22)?;
    // `even` and `odd`, which call each other
    check_reach(&rt, calls(), 10, 18)?;
    // `twice`, which calls `onThis` two times
    check_reach(&rt, calls(), 14, 35)?;
    Ok(())
}
