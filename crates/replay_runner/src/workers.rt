//! The workers, each on a thread of its own.

ghost use Rattle.std.specs.Prelude.{◌≤◌};
ghost use Rattle.jvm_types.specs.declared.limits.TheConstants.{MOST_WORKERS};

use checked_program::Checked;
use jvm_types::Gate;
use std::sync::{Mutex, Wait};
use std::thread::{Threads, for_each_mut, yield_now};

/// What workers share under one lock: each makes its events in it, one at a time.
pub trait Shared {
    ghost use Rattle.std.specs.Prelude.{ℕ, Option};
    ghost use Rattle.checked_program.specs.MarkedProgram.{MarkedProgram};

    /// Whose events they are.
    ghost takes: { MarkedProgram → Type 0 };

    /// What an event of a worker makes of it, by how many turns that has failed then; or that the
    /// worker makes no more.
    ghost makes: { (t : ℕ) → (was now : Self) → Option ℕ → Type 0 };

    /// No worker has an event to make.
    ghost over: { Self → Type 0 };

    /// One event of worker `t`, and how many turns it has failed then: `None` where it makes no
    /// more.
    fn make_event(&mut self, p: &Checked, t: u8) -> Option<u32>
        requires { takes p.now }
        ensures { makes t self.old self.new result };

    /// The events that are left, of all workers.
    fn make_rest(&mut self, p: &Checked)
        requires { takes p.now }
        ensures { over self.new };
}

/// One event of a worker, under the lock.
fn make_event<L: Shared, R: Wait>(rt: &R, shared: &Mutex<L>, p: &Checked, t: u8) -> Option<u32>
    requires { L.takes p.now }
{
    let mut locked = shared.lock(rt);
    locked.make_event(p, t)
}

/// A worker: it passes the gate, and then makes its events until it makes no more. It holds the
/// lock for one event at a time, and leaves the processor to others behind a turn that failed.
fn work<L: Shared, R: Wait, G: Gate>(rt: &R, gate: &G, shared: &Mutex<L>, p: &Checked, t: u8)
    requires { L.takes p.now }
{
    gate.pass(t);
    let mut failed = 0;
    for _ in 0..u64::MAX {
        match make_event(rt, shared, p, t) {
            Some(turns) => {
                if turns > failed {
                    yield_now();
                }
                failed = turns;
            }
            None => return,
        }
    }
}

/// Runs so many workers, takes what they share out of the lock when they have returned, and makes
/// the events that they left, so that no worker has one to make. What else it tells of that is what
/// its type does: not which worker made an event, nor when.
pub fn run_workers<L: Shared + Send, R: Threads + Wait + Sync, G: Gate + Sync>(
    rt: &R,
    gate: &G,
    shared: L,
    p: &Checked,
    count: u8,
) -> L
    requires program { L.takes p.now }
    requires few { count ≤ MOST_WORKERS }
    ensures { L.over result }
{
    let mut numbers = [1, 2, 3, 4, 5, 6, 7, 8];
    let shared = Mutex::new(shared);
    if count > 0 {
        for_each_mut(
            rt,
            &mut numbers[..count as usize],
            count as usize,
            &|_, t: &mut u8|
                requires { L.takes p.now }
            { work(rt, gate, &shared, p, *t) },
        );
    }
    let mut shared = shared.into_inner();
    shared.make_rest(p);
    shared
}
