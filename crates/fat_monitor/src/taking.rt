//! How a lock is taken.

ghost use Rattle.std.specs.Prelude.{◌≡◌, ◌<◌, ◌^◌, None, length, true, if◌then◌else◌, ◌==◌};
ghost use Rattle.jvm_types.specs.declared.limits.TheConstants.{MOST_LIMIT, MOST_WORKERS};
ghost use Rattle.machine_types.specs.Going.{failed_turn};
ghost use Rattle.machine_types.specs.HeldMonitors.{held_at, places_of};
ghost use Rattle.machine_types.specs.LockWords.{is_lock_word, lock_of, word_of_lock};
ghost use Rattle.machine_types.specs.Monitors.{acquires, takes};
ghost use Rattle.machine_types.specs.declared.lock.Kept.TheVariants.{Fat, Flat};
ghost use Rattle.machine_types.specs.declared.lock.LockWord.TheVariants.{Free};
ghost use Rattle.machine_types.specs.declared.phase.Phase.TheVariants.{Acquire, TakeFat};
ghost use Rattle.fat_monitor.specs.Answering.{CanTake, HasPlaceFor, HasTurn};

use frames::{ThreadState, count_locked, fail_turn, runs};
use jvm_types::limits::FLAG_FROM;
use lock_word::{LockWord, read, word};
use machine_types::{Held, Kept, Phase};

/// By what the lock word says.
fn acquire_by(s: &mut ThreadState, monitor: u32, lock: LockWord)
    requires { HasTurn s.old }
    ensures { s.new ≡ acquires s.old monitor lock }
{
    match lock {
        LockWord::Free(count) => s.set_phase(Phase::Take(monitor, count)),
        LockWord::Held(owner) => {
            // a limit of turns is a `u32`
            let _most = s.config().turns;
            if s.turns() + 1 < FLAG_FROM {
                fail_turn(s, Phase::Acquire(monitor));
            } else {
                fail_turn(s, Phase::Flag(monitor, owner));
            }
        }
        LockWord::Flagged(_) => fail_turn(s, Phase::Acquire(monitor)),
        LockWord::Fat(number) => s.set_phase(Phase::TakeFat(monitor, number)),
    }
}

/// How a thread goes on that has looked at the word of a lock to take it: a free lock is taken
/// next, a held one costs a failed turn and is flagged from the 64th on, and of a fat one the
/// record is.
pub fn acquire(s: &mut ThreadState, monitor: u32, found: u64)
    requires turn { HasTurn s.old }
    requires word { is_lock_word found ≡ true }
    ensures { s.new ≡ acquires s.old monitor (lock_of found) }
{
    acquire_by(s, monitor, read(found));
}

/// The lock is taken.
pub fn take(s: &mut ThreadState, monitor: u32, kept: Kept)
    requires place { HasPlaceFor s.old monitor }
    requires count { s.old.counts.locked < MOST_LIMIT }
    ensures { s.new ≡ takes s.old monitor kept }
{
    s.put_held(Held {
        monitor,
        kept,
        depth: 1,
    });
    count_locked(s);
    runs(s);
}

/// The lock of a monitor that the thread does not hold is taken.
#[inline(always)]
pub fn take_unheld(s: &mut ThreadState, monitor: u32, kept: Kept)
    requires none { held_at s.old.held monitor ≡ None }
    requires place { length s.old.held < places_of s.old.program }
    requires count { s.old.counts.locked < MOST_LIMIT }
    ensures { s.new ≡ takes s.old monitor kept }
{
    s.add_held(Held {
        monitor,
        kept,
        depth: 1,
    });
    count_locked(s);
    runs(s);
}

/// A flat lock, whose word was free with this count where the thread looked at it.
pub fn take_flat(s: &mut ThreadState, monitor: u32, count: u64, found: u64)
    requires can { CanTake s.old monitor }
    requires count { count < 2 ^ 62 }
    ensures { s.new ≡ (if found == word_of_lock (Free count) then takes s.old monitor (Flat count)
        else failed_turn s.old (Acquire monitor)) }
{
    if found == word(LockWord::Free(count)) {
        take(s, monitor, Kept::Flat(count));
    } else {
        fail_turn(s, Phase::Acquire(monitor));
    }
}

/// A fat lock, by the owner that its record had.
pub fn take_fat(s: &mut ThreadState, monitor: u32, number: u32, owner: u64)
    requires { CanTake s.old monitor }
    ensures { s.new ≡ (if owner == 0 then takes s.old monitor (Fat number) else failed_turn s.old
        (TakeFat monitor number)) }
{
    if owner == 0 {
        take(s, monitor, Kept::Fat(number));
    } else {
        fail_turn(s, Phase::TakeFat(monitor, number));
    }
}
