//! Runs of a cell.

ghost use Rattle.std.specs.Prelude.{◌<◌, ◌≤◌};

use cell_runner::run_cell;
use jvm_types::{Gate, OpenGate};
use std::alloc::AllocError;
use std::process::Abort;
use std::sync::atomic::{AtomicU64, Ordering};
use std::test::Fail;
use std::thread::Threads;

/// The writes, or the reads, of workers of which none stopped.
fn all_of(threads: u8, rounds: u32) -> u64 {
    threads as u64 * rounds as u64
}

/// No limit is met: a worker may look for the cell for as long as another one, which has it, waits
/// for a processor.
fn check_whole<R: Abort + Threads + Sync + AllocGlobal>(
    rt: &R,
    threads: u8,
    rounds: u32,
) -> Result<(), AllocError>
    requires { (threads ≤ 8) × (0 < rounds) × (rounds ≤ 1000) }
{
    let report = run_cell(rt, rt.alloc(), &OpenGate, threads, rounds, u32::MAX)?;
    assert_eq!(rt; report.writes, all_of(threads, rounds));
    assert_eq!(rt; report.reads, all_of(threads, rounds));
    assert_eq!(rt; report.stopped, 0);
    Ok(())
}

#[test]
fn workers_make_all_rounds(rt: HostRuntime) -> Result<(), Fail> {
    for threads in [0, 1, 2, 4, 8] {
        check_whole(&rt, threads, 1)?;
        check_whole(&rt, threads, 1_000)?;
    }
    Ok(())
}

// A worker stops at its first try that fails.
#[test]
fn workers_have_one_turn(rt: HostRuntime) -> Result<(), Fail> {
    for threads in [1, 2, 4, 8] {
        let report = run_cell(&rt, rt.alloc(), &OpenGate, threads, 1_000, 1)?;
        assert!(rt; report.reads <= report.writes && report.writes <= all_of(threads, 1_000));
        assert_eq!(rt; report.stopped == 0, report.reads == all_of(threads, 1_000));
    }
    Ok(())
}

/// How often a worker looks for the other one.
const LOOKS: u32 = 100_000_000;

/// A gate at which each of two workers looks for the other.
#[derive(Drop)]
struct Pair {
    /// How often worker 1 came, and worker 2.
    came: [AtomicU64; 2],
    /// How often a worker found that both had come.
    met: AtomicU64,
}

impl Pair {
    /// Whether each of the two came once.
    fn is_there(&self) -> bool {
        self.came[0].load(Ordering::SeqCst) == 1 && self.came[1].load(Ordering::SeqCst) == 1
    }
}

impl Gate for Pair {
    fn pass(&self, t: u8) {
        match t {
            1 => self.came[0].fetch_add(1, Ordering::SeqCst),
            _ => self.came[1].fetch_add(1, Ordering::SeqCst),
        };
        for _ in 0..LOOKS {
            if self.is_there() {
                self.met.fetch_add(1, Ordering::SeqCst);
                return;
            }
        }
    }
}

// Two workers stand at the gate at one time, as they cannot by turns on one thread.
#[test]
fn two_workers_meet(rt: HostRuntime) -> Result<(), Fail> {
    let gate = Pair {
        came: [AtomicU64::new(0), AtomicU64::new(0)],
        met: AtomicU64::new(0),
    };
    let report = run_cell(&rt, rt.alloc(), &gate, 2, 1, u32::MAX)?;
    assert!(rt; gate.is_there());
    assert_eq!(rt; gate.met.load(Ordering::SeqCst), 2);
    assert_eq!(rt; report.writes, 2);
    Ok(())
}
