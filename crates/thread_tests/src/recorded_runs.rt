//! Runs under one lock that keep their order.

ghost use Rattle.std.specs.Prelude.{◌≡◌, ◌≤◌};
ghost use Rattle.machine_types.specs.Settings.{AreSettings};
ghost use Rattle.record_run.specs.declared.recording.TheConstants.{MOST_EVENTS};

use checked_program::Checked;
use class_runner::{FileError, load_program, report};
use jvm_types::limits::{LEAST_HEAP, MOST_LIMIT};
use jvm_types::{Bytes, OpenGate, Outcome, Rows};
use machine_types::Config;
use record_run::{MOST_EVENTS, Recorded, replay, run_recorded};
use std::alloc::{AllocError, Global};
use std::process::Abort;
use std::sync::Wait;
use std::test::Fail;
use std::thread::Threads;
use test_classes::{BANK, bytes_of};

/// No limit is met.
const SETTINGS: Config = Config {
    steps: MOST_LIMIT,
    turns: MOST_LIMIT,
    prints: 1,
    elide: true,
    range: MOST_LIMIT,
};

/// The program of class Bank, with so many workers.
pub(crate) fn load_bank(alloc: Global, workers: u8) -> Result<Checked, FileError>
    requires { workers ≤ 8 }
{
    let mut files = Rows::new(alloc);
    files.push(bytes_of(alloc, BANK)?)?;
    load_program(alloc, &files, LEAST_HEAP, workers)
}

/// The report of a run, which has a thread.
fn text_of(rt: &impl Abort, alloc: Global, outcome: &Outcome) -> Result<Bytes, AllocError> {
    assert!(rt; outcome.threads.len() > 0);
    report(alloc, outcome)
}

/// A replay by the order that was kept comes to the same report.
fn check_replay<R: Abort + AllocGlobal>(
    rt: &R,
    p: &Checked,
    recorded: &Recorded,
) -> Result<(), AllocError> {
    let again = replay(rt.alloc(), p, &SETTINGS, &recorded.order)?;
    assert!(rt; text_of(rt, rt.alloc(), &again)? == text_of(rt, rt.alloc(), &recorded.outcome)?);
    Ok(())
}

/// A run that keeps so many events, and the replay by them: how many it kept.
fn check_run<R: Abort + Threads + Wait + Sync + AllocGlobal>(
    rt: &R,
    workers: u8,
    events: u32,
) -> Result<usize, FileError>
    requires { (workers ≤ 8) × (1 ≤ events) × (events ≤ MOST_EVENTS) }
{
    let p = load_bank(rt.alloc(), workers)?;
    let recorded = run_recorded(rt, rt.alloc(), &OpenGate, &p, &SETTINGS, events)?;
    check_replay(rt, &p, &recorded)?;
    Ok(recorded.order.len())
}

#[test]
fn recorded_orders_are_replayed(rt: HostRuntime) -> Result<(), Fail> {
    assert_eq!(rt; check_run(&rt, 4, 1)?, 1);
    assert_eq!(rt; check_run(&rt, 4, 1_000)?, 1_000);
    assert!(rt; check_run(&rt, 4, MOST_EVENTS)? > 1_000);
    Ok(())
}

#[test]
fn no_workers_have_no_order(rt: HostRuntime) -> Result<(), Fail> {
    assert_eq!(rt; check_run(&rt, 0, MOST_EVENTS)?, 0);
    Ok(())
}
