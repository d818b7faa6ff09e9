//! Workers who pass a gate before their events.

use crate::recorded_runs::load_bank;
use checked_program::Checked;
use jvm_types::Gate;
use replay_runner::{Shared, run_workers};
use std::sync::atomic::{AtomicU64, Ordering};
use std::test::Fail;

/// A gate that keeps which numbers have passed it, one bit for each.
#[derive(Drop)]
struct Passed {
    numbers: AtomicU64,
}

impl Passed {
    /// Whether this number has passed.
    fn has(&self, t: u8) -> bool {
        self.numbers.load(Ordering::SeqCst) >> (t % 64) & 1 == 1
    }
}

impl Gate for Passed {
    fn pass(&self, t: u8) {
        self.numbers.fetch_or(1 << (t % 64), Ordering::SeqCst);
    }
}

/// Workers who make one event each.
#[derive(Drop)]
struct Comers<'a> {
    gate: &'a Passed,
    /// How many of their events came when their worker had passed the gate.
    behind: u32,
    /// How many others came.
    others: u32,
}

impl<'a> Shared for Comers<'a> {
    ghost takes = { λ c. Unit {0} };

    ghost makes = { λ t was now turns. Unit {0} };

    ghost over = { λ comers. Unit {0} };

    fn make_event(&mut self, _p: &Checked, t: u8) -> Option<u32> {
        if self.gate.has(t) {
            self.behind = self.behind.saturating_add(1);
        } else {
            self.others = self.others.saturating_add(1);
        }
        None
    }

    fn make_rest(&mut self, _p: &Checked) {}
}

#[test]
fn events_come_behind_the_gate(rt: HostRuntime) -> Result<(), Fail> {
    let p = load_bank(rt.alloc(), 8)?;
    let gate = Passed {
        numbers: AtomicU64::new(0),
    };
    let comers = Comers {
        gate: &gate,
        behind: 0,
        others: 0,
    };
    let comers = run_workers(&rt, &gate, comers, &p, 8);
    assert_eq!(rt; comers.behind, 8);
    assert_eq!(rt; comers.others, 0);
    Ok(())
}
