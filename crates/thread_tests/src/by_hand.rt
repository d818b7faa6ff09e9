//! A run by hand: the parts begin, and the threads of the system make their events, as the test has
//! it.

ghost use Rattle.std.specs.Prelude.{◌≡◌, ◌<◌, ◌≤◌, ◌+◌, length, true};
ghost use Rattle.table_rule.specs.Views.{HoldsAll};
ghost use Rattle.table_runner.specs.Handed.{IsTableOf};
ghost use Rattle.table_runner.specs.Running.{AreSame, AreWorkers, IsWorker};

use checked_program::Checked;
use class_runner::{FileError, load_program};
use jvm_types::limits::{LEAST_HEAP, MOST_LIMIT};
use jvm_types::{End, Outcome, Rows, ThreadReport};
use machine_types::Config;
use std::alloc::{AllocError, Global};
use std::process::Abort;
use std::test::Fail;
use std::thread::{Threads, for_each_mut};
use table_runner::{CoreTable, Hands, table};
use test_classes::{SHARED, bytes_of};

/// No limit is met: a worker may look for the lock for as long as the other one, which has it,
/// waits for a processor.
const SETTINGS: Config = Config {
    steps: MOST_LIMIT,
    turns: MOST_LIMIT,
    prints: 1,
    elide: true,
    range: MOST_LIMIT,
};

/// The program of a class file, with two workers.
fn load(alloc: Global, class: &str) -> Result<Checked, FileError> {
    let mut files = Rows::new(alloc);
    files.push(bytes_of(alloc, class)?)?;
    load_program(alloc, &files, LEAST_HEAP, 2)
}

/// The events of thread `t` until it is not live.
fn go_on(hands: &mut Hands, table: &CoreTable, p: &Checked, t: u8)
    requires worker { IsWorker table.now.table_id table.now.program
        table.now.cfg t hands.old }
    requires program { p.now ≡ table.now.program }
    ensures { AreSame hands.old hands.new }
{
    for _ in 0..u64::MAX {
        if !hands.event(table, p, t) {
            break;
        }
    }
}

/// The events of thread 0, which the hands hold.
fn go_alone(rt: &impl Abort, hands: &mut Hands, table: &CoreTable, p: &Checked)
    requires table { IsTableOf table.now.table_id table.now.program
        table.now.cfg hands.old }
    requires program { p.now ≡ table.now.program }
    ensures { IsTableOf table.now.table_id table.now.program
        table.now.cfg hands.new }
{
    assert!(rt; hands.holds(0));
    go_on(hands, table, p, 0);
}

/// The events of the workers, each on a thread of its own.
fn go_apart<R: Threads + Sync>(rt: &R, workers: &mut [Hands], table: &CoreTable, p: &Checked)
    requires few { length workers.old ≤ 8 }
    requires workers { AreWorkers table.now.table_id table.now.program
        table.now.cfg workers.old }
    requires program { p.now ≡ table.now.program }
    ensures workers { AreWorkers table.now.table_id table.now.program
        table.now.cfg workers.new }
    ensures count { length workers.new ≡ length workers.old }
{
    for_each_mut(
        rt,
        workers,
        2,
        &|i: usize, h: &mut Hands|
            requires { (i < 8) × IsWorker table.now.table_id
                table.now.program table.now.cfg (i + 1) h.now
                × (p.now ≡ table.now.program) }
            ensures { AreSame h.entry.now h.exit.now }
        { go_on(h, table, p, (i + 1) as u8) },
    );
}

/// Whether these hands hold thread 0 and both workers.
fn hold_all(hands: &Hands) -> bool
    requires { hands.now.program.program.workers ≤ 2 }
    ensures { result ≡ true → HoldsAll hands.now.program hands.now.threads }
{
    hands.holds(0) && hands.holds(1) && hands.holds(2)
}

/// Begins the next part, where the hands hold all threads.
fn begin(rt: &impl Abort, hands: &mut Hands, table: &CoreTable, p: &Checked) -> bool
    requires table { IsTableOf table.now.table_id table.now.program
        table.now.cfg hands.old }
    requires program { p.now ≡ table.now.program }
    requires workers { p.now.program.workers ≤ 2 }
    ensures { IsTableOf table.now.table_id table.now.program
        table.now.cfg hands.new }
{
    assert!(rt; hold_all(hands));
    hands.next(table, p)
}

/// Hands of worker `t`, which these held beside thread 0.
fn split(rt: &impl Abort, hands: &mut Hands, table: &CoreTable, t: u8) -> Hands
    requires table { IsTableOf table.now.table_id table.now.program
        table.now.cfg hands.old }
    ensures table { IsTableOf table.now.table_id table.now.program
        table.now.cfg hands.new }
    ensures worker { IsWorker table.now.table_id table.now.program
        table.now.cfg t result }
{
    assert!(rt; t != 0 && hands.holds(0) && hands.holds(t));
    let worker = hands.split(table, t);
    assert!(rt; !hands.holds(t) && !worker.holds(0) && worker.holds(t));
    worker
}

/// Takes in the hands of a worker.
fn join(hands: &mut Hands, table: &CoreTable, worker: Hands)
    requires table { IsTableOf table.now.table_id table.now.program
        table.now.cfg hands.old }
    requires worker { IsTableOf table.now.table_id table.now.program
        table.now.cfg worker }
    ensures { IsTableOf table.now.table_id table.now.program
        table.now.cfg hands.new }
{
    hands.join(table, worker);
}

/// The workers' part, each worker in hands of its own.
fn go_split<R: Abort + Threads + Sync>(rt: &R, hands: &mut Hands, table: &CoreTable, p: &Checked)
    requires table { IsTableOf table.now.table_id table.now.program
        table.now.cfg hands.old }
    requires program { p.now ≡ table.now.program }
    ensures { IsTableOf table.now.table_id table.now.program
        table.now.cfg hands.new }
{
    let mut workers = [split(rt, hands, table, 1), split(rt, hands, table, 2)];
    go_apart(rt, &mut workers, table, p);
    let [first, second] = workers;
    join(hands, table, first);
    join(hands, table, second);
}

/// A run of a program with two workers.
fn play<R: Abort + Threads + Sync + AllocGlobal>(rt: &R, p: &Checked) -> Result<Outcome, AllocError>
    requires { p.now.program.workers ≤ 2 }
{
    let (table, mut hands) = table(rt.alloc(), p, &SETTINGS)?;
    go_alone(rt, &mut hands, &table, p);
    assert!(rt; begin(rt, &mut hands, &table, p));
    go_split(rt, &mut hands, &table, p);
    assert!(rt; begin(rt, &mut hands, &table, p));
    go_alone(rt, &mut hands, &table, p);
    assert!(rt; !begin(rt, &mut hands, &table, p));
    assert!(rt; hold_all(&hands));
    Ok(hands.close(table))
}

/// A thread has returned, with so many prints.
fn check_end(rt: &impl Abort, report: &ThreadReport, prints: usize) {
    assert_eq!(rt; report.end, End::Returned);
    assert_eq!(rt; report.prints.len(), prints);
}

/// Thread 1 prints the sum of two fields from one section, with its lock or without: both fields
/// are 0, or both 4.
fn check_reader(rt: &impl Abort, reader: &ThreadReport) {
    check_end(rt, reader, 1);
    for print in reader.prints.as_slice() {
        let sum = print.value;
        assert!(rt; sum == 0 || sum == 8);
    }
    assert_eq!(rt;
        reader.counts.elided.checked_add(reader.counts.locked),
        Some(1)
    );
}

/// Thread 2 sets both fields in one section, under its lock.
fn check_writer(rt: &impl Abort, writer: &ThreadReport) {
    check_end(rt, writer, 0);
    assert_eq!(rt; writer.counts.elided, 0);
    assert_eq!(rt; writer.counts.locked, 1);
}

/// What each order leads to.
fn check(rt: &impl Abort, outcome: &Outcome) {
    let [first, reader, writer] = outcome.threads.as_slice() else {
        panic!(rt; "there are three threads");
    };
    check_end(rt, first, 0);
    check_reader(rt, reader);
    check_writer(rt, writer);
    assert_eq!(rt; outcome.done, End::Returned);
}

#[test]
fn hands_run_workers_on_threads_of_the_caller(rt: HostRuntime) -> Result<(), Fail> {
    let p = load(rt.alloc(), SHARED)?;
    assert_eq!(rt; p.workers(), 2);
    check(&rt, &play(&rt, &p)?);
    Ok(())
}
