//! The search for all states, over a class file.

ghost use Rattle.std.specs.Prelude.{◌≡◌};

use crate::playing::load;
use checked_program::Checked;
use class_runner::FileError;
use history_rule::Plain;
use plain_search::{Found, search};
use std::alloc::AllocError;
use std::process::Abort;
use std::test::*;
use test_classes::SHARED;

/// The one number that was printed.
fn only_print(rt: &impl Abort, plain: &Plain) -> Option<i32> {
    assert_eq!(rt; plain.print(1), None);
    plain.print(0)
}

/// What was printed in a state without a step, to which steps lead that are found.
fn printed_at(
    rt: &(impl Abort + AllocGlobal),
    found: &Found,
    p: &Checked,
    rest: u32,
) -> Result<Option<i32>, AllocError>
    requires { p.now ≡ found.now.program }
{
    let i = rest as usize;
    assert!(rt; i < found.len());
    let steps = found.steps_to(rt.alloc(), p, i)?;
    assert!(rt; steps.is_some());
    Ok(only_print(rt, found.at(i)))
}

#[test]
fn a_locked_sum_is_whole_in_every_order(rt: HostRuntime) -> Result<(), FileError> {
    let p = load(rt.alloc(), SHARED, 2)?;
    let found = search(rt.alloc(), &p, 10_000)?;
    assert!(&rt; found.is_whole());
    let mut nothing = false;
    let mut both = false;
    for rest in found.rests() {
        match printed_at(&rt, &found, &p, *rest)? {
            Some(0) => nothing = true,
            Some(8) => both = true,
            _ => assert!(&rt; false),
        }
    }
    assert!(&rt; nothing);
    assert!(&rt; both);
    Ok(())
}

#[test]
fn a_search_that_was_cut_is_not_whole(rt: HostRuntime) -> Result<(), FileError> {
    let p = load(rt.alloc(), SHARED, 2)?;
    let found = search(rt.alloc(), &p, 3)?;
    assert!(&rt; !found.is_whole());
    Ok(())
}
