//! Histories as rows of steps, and how they are played.

ghost use Rattle.std.specs.Prelude.{◌≡◌, ◌≤◌, [], ◌∷◌, IfOk};
ghost use Rattle.jvm_types.specs.declared.limits.TheConstants.{MOST_WORKERS};

use checked_program::Checked;
use class_runner::{FileError, load_program};
use history_rule::{MOST_STEPS, Plain, plain_step};
use jvm_types::limits::LEAST_HEAP;
use jvm_types::{Bytes, Rows};
use machine_types::{Act, PlainStep};
use std::alloc::{AllocError, Global};
use std::process::Abort;
use std::test::*;
use test_classes::bytes_of;

/// A thread, its act, how often, and whether there is such a step.
pub type Steps = (u8, Act, u8, bool);

/// One file.
fn one(alloc: Global, file: Bytes) -> Result<Rows<Bytes>, AllocError>
    ensures { IfOk result (λ files. files ≡ file ∷ []) }
{
    let mut files = Rows::new(alloc);
    files.push(file)?;
    Ok(files)
}

/// A program of one class file of the tests, with so many workers.
pub fn load(alloc: Global, class: &str, workers: u8) -> Result<Checked, FileError>
    requires { workers ≤ MOST_WORKERS }
{
    let files = one(alloc, bytes_of(alloc, class)?)?;
    load_program(alloc, &files, LEAST_HEAP, workers)
}

/// Makes the same step so many times, each of which there is or not, and is counted where there is.
fn make(
    rt: &(impl Abort + AllocGlobal),
    p: &Checked,
    plain: &mut Plain,
    steps: &Steps,
) -> Result<(), AllocError>
    requires { p.now ≡ plain.old.program }
    ensures { plain.new.program ≡ plain.old.program }
{
    let (thread, act, count, made) = *steps;
    for _ in 0..count {
        let before = plain.steps();
        assert!(rt; before < MOST_STEPS);
        let step = PlainStep { thread, act };
        assert_eq!(rt; plain_step(rt.alloc(), plain, p, &step)?, made);
        assert_eq!(rt; plain.steps(), before + u64::from(made));
    }
    Ok(())
}

pub fn make_all(
    rt: &(impl Abort + AllocGlobal),
    p: &Checked,
    plain: &mut Plain,
    all: &[Steps],
) -> Result<(), AllocError>
    requires { p.now ≡ plain.old.program }
{
    for steps in all {
        make(rt, p, plain, steps)?;
    }
    Ok(())
}

/// The threads and the numbers that were printed.
pub fn check_prints(rt: &(impl Abort + AllocGlobal), plain: &Plain, wanted: &[(u8, i32)]) {
    for (i, want) in wanted.iter().enumerate() {
        assert_eq!(rt; plain.print(i), Some(want.1));
    }
    assert_eq!(rt; plain.print(wanted.len()), None);
    for (printed, want) in plain.prints().iter().zip(wanted) {
        assert_eq!(rt; printed.thread(), want.0);
    }
}
