//! The shadows of worked runs: the plain steps that each run stands for, in their order, and what
//! they print.

ghost use Rattle.std.specs.Prelude.{◌≤◌};
ghost use Rattle.jvm_types.specs.declared.limits.TheConstants.{MOST_WORKERS};

use crate::playing::{Steps, check_prints, load, make_all};
use checked_program::Checked;
use class_runner::FileError;
use history_rule::{Plain, plain_start};
use jvm_types::{End, Thrown};
use machine_types::Act;
use std::alloc::AllocError;
use std::process::Abort;
use std::test::*;
use test_classes::{
    ARRAY_PAIR, CLASS_LOCKS, CLASS_PAIR, DIVIDES_AT_REST, INDEXES_AND_THROWS, SHARED, WAITS,
};

/// A part, a thread, and how that part of it ended.
type Ended = (usize, u8, End);

/// Two attempts at a section whose first one sees one field set and the other not: it leaves no
/// step, and the section stands as a whole where the second one is done, behind the thread that set
/// both.
const TORN_ONCE: [Steps; 15] = [
    (0, Act::Begin, 1, true),
    (0, Act::Do, 8, true),
    (1, Act::Begin, 1, true),
    (1, Act::Do, 10, true),
    (2, Act::Begin, 1, true),
    (2, Act::Do, 6, true),
    (2, Act::Enter, 1, true),
    (2, Act::Do, 7, true),
    (2, Act::Exit, 1, true),
    (2, Act::Do, 1, true),
    (1, Act::Enter, 1, true),
    (1, Act::Do, 7, true),
    (1, Act::Exit, 1, true),
    (1, Act::Do, 3, true),
    (0, Act::Begin, 1, false),
];

/// Two attempts that fail, each behind a thread that set both fields, leave no step; then the lock
/// is taken.
const TORN_TWICE: [Steps; 20] = [
    (0, Act::Begin, 1, true),
    (0, Act::Do, 8, true),
    (1, Act::Begin, 1, true),
    (1, Act::Do, 10, true),
    (2, Act::Begin, 1, true),
    (2, Act::Do, 6, true),
    (2, Act::Enter, 1, true),
    (2, Act::Do, 7, true),
    (2, Act::Exit, 1, true),
    (2, Act::Do, 1, true),
    (3, Act::Begin, 1, true),
    (3, Act::Do, 6, true),
    (3, Act::Enter, 1, true),
    (3, Act::Do, 7, true),
    (3, Act::Exit, 1, true),
    (3, Act::Do, 1, true),
    (1, Act::Enter, 1, true),
    (1, Act::Do, 7, true),
    (1, Act::Exit, 1, true),
    (1, Act::Do, 3, true),
];

/// With locks in the order of the first run, the reader comes first, and the other thread enters
/// when it has left.
const LOCKED: [Steps; 17] = [
    (0, Act::Begin, 1, true),
    (0, Act::Do, 8, true),
    (1, Act::Begin, 1, true),
    (1, Act::Do, 10, true),
    (1, Act::Enter, 1, true),
    (2, Act::Begin, 1, true),
    (2, Act::Do, 6, true),
    (2, Act::Enter, 1, false),
    (1, Act::Do, 7, true),
    (1, Act::Exit, 1, true),
    (1, Act::Do, 1, true),
    (2, Act::Enter, 1, true),
    (1, Act::Do, 1, true),
    (2, Act::Do, 1, true),
    (1, Act::Do, 1, true),
    (2, Act::Do, 6, true),
    (2, Act::Exit, 1, true),
];

/// Two threads wait on one object, whose lock is made fat, and a third one wakes them one by one.
/// `done` notifies without the monitor, which throws.
const WAITERS_WAKE: [Steps; 41] = [
    (0, Act::Begin, 1, true),
    (0, Act::Do, 8, true),
    (1, Act::Begin, 1, true),
    (1, Act::Do, 6, true),
    (1, Act::Enter, 1, true),
    (1, Act::Do, 2, true),
    (1, Act::Wait, 1, true),
    (2, Act::Begin, 1, true),
    (2, Act::Do, 6, true),
    (2, Act::Enter, 1, true),
    (2, Act::Do, 2, true),
    (2, Act::Wait, 1, true),
    (3, Act::Begin, 1, true),
    (3, Act::Do, 5, true),
    (3, Act::Enter, 1, true),
    (3, Act::Do, 2, true),
    // a thread waits, so one is woken
    (3, Act::Notify(None), 1, false),
    (3, Act::Notify(Some(1)), 1, true),
    // the monitor is held
    (1, Act::Retake, 1, false),
    (3, Act::Do, 1, true),
    (3, Act::Exit, 1, true),
    // it still waits
    (2, Act::Retake, 1, false),
    (1, Act::Retake, 1, true),
    (1, Act::Do, 4, true),
    (1, Act::Exit, 1, true),
    (1, Act::Do, 1, true),
    (3, Act::Do, 2, true),
    (3, Act::Enter, 1, true),
    (3, Act::Do, 2, true),
    // it waits no more
    (3, Act::Notify(Some(1)), 1, false),
    (3, Act::Notify(Some(2)), 1, true),
    (3, Act::Do, 1, true),
    (3, Act::Exit, 1, true),
    (3, Act::Do, 1, true),
    // thread 2 has not ended
    (0, Act::Begin, 1, false),
    (2, Act::Retake, 1, true),
    (2, Act::Do, 4, true),
    (2, Act::Exit, 1, true),
    (2, Act::Do, 1, true),
    (0, Act::Begin, 1, true),
    (0, Act::Do, 3, true),
];

/// A section divides by 0, leaves its monitor in a handler, and throws on; nothing catches it.
const SECTION_THROWS: [Steps; 9] = [
    (0, Act::Begin, 1, true),
    (0, Act::Do, 8, true),
    (1, Act::Begin, 1, true),
    (1, Act::Do, 10, true),
    (1, Act::Enter, 1, true),
    (1, Act::Do, 11, true),
    (1, Act::Exit, 1, true),
    (1, Act::Do, 4, true),
    (1, Act::Do, 1, false),
];

/// An index out of range is caught, and an exception that the program made is not: 24 instructions
/// and what two exceptions do.
const ELEMENTS_THROW: [Steps; 3] = [
    (0, Act::Begin, 1, true),
    (0, Act::Do, 26, true),
    (0, Act::Do, 1, false),
];

/// The monitor of a class: entered again by the thread that holds it, left by an exception, and
/// entered by one worker when the other one has left it.
const CLASS_MONITOR: [Steps; 38] = [
    (0, Act::Begin, 1, true),
    (0, Act::Do, 3, true),
    (0, Act::Enter, 1, true),
    (0, Act::Do, 2, true),
    // it is entered again
    (0, Act::Enter, 1, true),
    // it divides by 0, and the method catches nothing
    (0, Act::Do, 4, true),
    (0, Act::Exit, 1, true),
    (0, Act::Do, 1, true),
    (0, Act::Exit, 1, true),
    // `init` catches it, and calls once more
    (0, Act::Do, 5, true),
    (0, Act::Enter, 1, true),
    (0, Act::Do, 2, true),
    (0, Act::Enter, 1, true),
    (0, Act::Do, 4, true),
    (0, Act::Exit, 1, true),
    (0, Act::Do, 2, true),
    (0, Act::Enter, 1, true),
    (0, Act::Do, 4, true),
    (0, Act::Exit, 1, true),
    (0, Act::Do, 2, true),
    (0, Act::Exit, 1, true),
    (0, Act::Do, 2, true),
    (1, Act::Begin, 1, true),
    (1, Act::Do, 2, true),
    (1, Act::Enter, 1, true),
    (2, Act::Begin, 1, true),
    (2, Act::Do, 2, true),
    // the monitor is held
    (2, Act::Enter, 1, false),
    (1, Act::Do, 5, true),
    (2, Act::Enter, 1, false),
    (1, Act::Exit, 1, true),
    (2, Act::Enter, 1, true),
    (2, Act::Do, 5, true),
    (2, Act::Exit, 1, true),
    (2, Act::Do, 1, true),
    (1, Act::Do, 1, true),
    (0, Act::Begin, 1, true),
    (0, Act::Do, 4, true),
];

/// An attempt on a class, which reads one static field before it is set and the other behind it,
/// leaves no step; the section stands as a whole behind the thread that set both.
const CLASS_TORN: [Steps; 14] = [
    (1, Act::Begin, 1, true),
    (1, Act::Do, 5, true),
    (2, Act::Begin, 1, true),
    (2, Act::Do, 5, true),
    (2, Act::Enter, 1, true),
    // the monitor is held
    (1, Act::Enter, 1, false),
    (2, Act::Do, 5, true),
    (2, Act::Exit, 1, true),
    (2, Act::Do, 1, true),
    (1, Act::Enter, 1, true),
    (1, Act::Do, 4, true),
    (1, Act::Exit, 1, true),
    (1, Act::Do, 3, true),
    (0, Act::Begin, 1, false),
];

/// An attempt that reads one element before it is set and the other behind it leaves no step; the
/// section stands as a whole behind the thread that set both.
const ARRAY_TORN: [Steps; 16] = [
    (0, Act::Begin, 1, true),
    (0, Act::Do, 12, true),
    (1, Act::Begin, 1, true),
    (1, Act::Do, 6, true),
    (2, Act::Begin, 1, true),
    (2, Act::Do, 6, true),
    (2, Act::Enter, 1, true),
    // the monitor is held
    (1, Act::Enter, 1, false),
    (2, Act::Do, 11, true),
    (2, Act::Exit, 1, true),
    (2, Act::Do, 1, true),
    (1, Act::Enter, 1, true),
    (1, Act::Do, 10, true),
    (1, Act::Exit, 1, true),
    (1, Act::Do, 3, true),
    (0, Act::Begin, 1, false),
];

/// Reads how a part of a thread ended.
fn check_end(rt: &(impl Abort + AllocGlobal), plain: &Plain, ended: &Ended) {
    let (part, thread, end) = *ended;
    assert_eq!(rt; plain.end_at(part, thread), Some(end));
}

/// Plays a shadow of a program, and reads what it printed and how a part of a thread ended.
fn play_shadow(
    rt: &(impl Abort + AllocGlobal),
    p: &Checked,
    shadow: &[Steps],
    printed: &[(u8, i32)],
    ended: &Ended,
) -> Result<(), AllocError> {
    let mut plain = plain_start(rt.alloc(), p)?;
    make_all(rt, p, &mut plain, shadow)?;
    check_prints(rt, &plain, printed);
    check_end(rt, &plain, ended);
    Ok(())
}

/// The same of a class file, with so many workers.
fn play(
    rt: &(impl Abort + AllocGlobal),
    class: &str,
    workers: u8,
    shadow: &[Steps],
    printed: &[(u8, i32)],
    ended: &Ended,
) -> Result<(), FileError>
    requires { workers ≤ MOST_WORKERS }
{
    let p = load(rt.alloc(), class, workers)?;
    play_shadow(rt, &p, shadow, printed, ended)?;
    Ok(())
}

const RETURNED: Ended = (0, 1, End::Returned);

const DIVIDED: Ended = (0, 1, End::Uncaught(Thrown::ArithmeticException));

const THREW: Ended = (0, 0, End::Uncaught(Thrown::Exception));

const UNHELD: Ended = (1, 0, End::Uncaught(Thrown::IllegalMonitorStateException));

#[test]
fn shadows_of_worked_runs_print_what_the_runs_do(rt: HostRuntime) -> Result<(), FileError> {
    play(&rt, SHARED, 2, &TORN_ONCE, &[(1, 8)], &RETURNED)?;
    play(&rt, SHARED, 3, &TORN_TWICE, &[(1, 8)], &RETURNED)?;
    play(&rt, SHARED, 2, &LOCKED, &[(1, 0)], &RETURNED)
}

#[test]
fn shadows_with_exceptions_and_waits_do_too(rt: HostRuntime) -> Result<(), FileError> {
    play(&rt, DIVIDES_AT_REST, 1, &SECTION_THROWS, &[], &DIVIDED)?;
    play(
        &rt,
        INDEXES_AND_THROWS,
        0,
        &ELEMENTS_THROW,
        &[(0, 7), (0, 3)],
        &THREW,
    )?;
    play(&rt, WAITS, 3, &WAITERS_WAKE, &[(1, 1), (2, 2)], &UNHELD)
}

#[test]
fn shadows_with_the_monitor_of_a_class_do_too(rt: HostRuntime) -> Result<(), FileError> {
    play(
        &rt,
        CLASS_LOCKS,
        2,
        &CLASS_MONITOR,
        &[(0, 4), (0, 3)],
        &RETURNED,
    )?;
    play(&rt, CLASS_PAIR, 2, &CLASS_TORN, &[(1, 8)], &RETURNED)
}

#[test]
fn shadows_with_elements_do_too(rt: HostRuntime) -> Result<(), FileError> {
    play(&rt, ARRAY_PAIR, 2, &ARRAY_TORN, &[(1, 8)], &RETURNED)
}
