//! The gate of the program, at which the workers of a run on threads meet.

use jvm_types::Gate;
use std::sync::atomic::{AtomicU64, Ordering};
use std::thread::yield_now;

/// So many looks in a row find all workers here, and nobody new, before the gate opens.
const QUIET_LOOKS: u32 = 30;

/// How often a worker looks at most.
const LOOKS: u32 = 5_000;

/// Added to the number of those who came, once the gate is open.
const OPEN: u64 = 1 << 32;

/// A gate that opens when all workers are there, as far as it can know: those with lower numbers
/// than any that came, and, since nobody has told it how many there are, whoever comes within a
/// while. So short runs on threads overlap, where a gate that holds nobody back lets the first
/// worker end before the last one begins.
///
/// Nobody waits for ever: a worker looks a bounded number of times, and then opens the gate for
/// all. That workers meet is promised by no clause.
#[derive(Drop)]
pub struct MeetingGate {
    came: AtomicU64,
    highest: AtomicU64,
}

impl MeetingGate {
    /// A gate that is closed, to which nobody has come.
    pub const fn new() -> Self {
        let came = AtomicU64::new(0);
        let highest = AtomicU64::new(0);
        MeetingGate { came, highest }
    }

    // Looks until the gate is open, or all are there and nobody new has come for a while.
    fn wait_for_others(&self, came: u64) {
        let mut seen = came;
        let mut quiet_looks = 0;
        for _ in 0..LOOKS {
            if OPEN <= seen || QUIET_LOOKS <= quiet_looks {
                return;
            }
            yield_now();
            let now = self.came.load(Ordering::SeqCst);
            let are_all_here = self.highest.load(Ordering::SeqCst) <= now;
            quiet_looks = if are_all_here && now == seen {
                quiet_looks + 1
            } else {
                0
            };
            seen = now;
        }
    }
}

impl Gate for MeetingGate {
    fn pass(&self, t: u8) {
        self.highest.fetch_max(u64::from(t), Ordering::SeqCst);
        let before = self.came.fetch_add(1, Ordering::SeqCst);
        if before < OPEN {
            self.wait_for_others(before + 1);
            self.came.fetch_or(OPEN, Ordering::SeqCst);
        }
    }
}
