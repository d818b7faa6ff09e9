//! The counts of a thread, each raised by one.

ghost use Rattle.std.specs.Prelude.{◌≡◌, ◌<◌, ◌+◌};
ghost use Rattle.jvm_types.specs.declared.limits.TheConstants.{MOST_LIMIT};

use crate::ThreadState;
use jvm_types::Counts;

/// One more instruction is begun.
#[inline(always)]
pub fn count_instruction(s: &mut ThreadState)
    requires { s.old.counts.instructions < MOST_LIMIT }
    ensures { s.new ≡ record s.old
        { counts = record s.old.counts { instructions = s.old.counts.instructions + 1 } } }
{
    let counts = s.counts();
    s.set_counts(Counts {
        instructions: counts.instructions + 1,
        ..counts
    });
}

/// One more section ran without its lock.
pub fn count_elided(s: &mut ThreadState)
    requires { s.old.counts.elided < MOST_LIMIT }
    ensures { s.new
        ≡ record s.old { counts = record s.old.counts { elided = s.old.counts.elided + 1 } } }
{
    let counts = s.counts();
    s.set_counts(Counts {
        elided: counts.elided + 1,
        ..counts
    });
}

/// One more attempt failed.
pub fn count_failed(s: &mut ThreadState)
    requires { s.old.counts.failed < MOST_LIMIT }
    ensures { s.new
        ≡ record s.old { counts = record s.old.counts { failed = s.old.counts.failed + 1 } } }
{
    let counts = s.counts();
    s.set_counts(Counts {
        failed: counts.failed + 1,
        ..counts
    });
}

/// One more lock is taken.
pub fn count_locked(s: &mut ThreadState)
    requires { s.old.counts.locked < MOST_LIMIT }
    ensures { s.new
        ≡ record s.old { counts = record s.old.counts { locked = s.old.counts.locked + 1 } } }
{
    let counts = s.counts();
    s.set_counts(Counts {
        locked: counts.locked + 1,
        ..counts
    });
}

/// One more lock is made fat.
pub fn count_inflated(s: &mut ThreadState)
    requires { s.old.counts.inflated < MOST_LIMIT }
    ensures { s.new
        ≡ record s.old { counts = record s.old.counts { inflated = s.old.counts.inflated + 1 } } }
{
    let counts = s.counts();
    s.set_counts(Counts {
        inflated: counts.inflated + 1,
        ..counts
    });
}
