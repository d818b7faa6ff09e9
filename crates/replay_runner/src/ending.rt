//! The end of a run, on one thread.

ghost use Rattle.std.specs.Prelude.{◌≡◌, ◌≤◌, ℕ, true, false, IfSome, MatchOption};
ghost use Rattle.jvm_types.specs.declared.limits.TheConstants.{MOST_WORKERS};
ghost use Rattle.machine_types.specs.Core.{lives};
ghost use Rattle.machine_types.specs.Faithful.{IsOver};
ghost use Rattle.replay_runner.specs.Locked.{IsOfProgram};
ghost use Rattle.replay_runner.specs.Running.{IsInTurn, parts_left};

use crate::locked::{Locked, Naming};
use crate::running::Machine;
use checked_program::Checked;
use laws_threads::given_is_kept;

/// The least live thread of a number at or above `from`, or where none is, at or above `least`.
pub fn next_live(machine: &Machine, least: u8, from: u8) -> Option<u8>
    requires { least ≤ from }
    ensures live { MatchOption result ((t : ℕ) → least ≤ t → lives machine.now.core t ≡ false)
        (λ t. (lives machine.now.core t ≡ true) × (least ≤ t) × (t ≤ MOST_WORKERS)) }
    ensures turn { IfSome result (IsInTurn machine.now.core least from) }
{
    for t in from..=machine.workers() {
        if machine.lives(t) {
            return Some(t);
        }
    }
    for t in least..=machine.workers() {
        if machine.lives(t) {
            return Some(t);
        }
    }
    None
}

/// Gives each live thread an event in its turn, in the order of their numbers, until none is live.
/// Each event leaves less for them to do.
pub(crate) fn run_live<J: Naming>(locked: &mut Locked<J>, p: &Checked)
    requires { IsOfProgram J.run p.now }
    ensures dead { (t : ℕ) → lives locked.new.core t ≡ false }
    ensures parts { parts_left locked.new.core.threads ≡ parts_left locked.old.core.threads }
{
    given_is_kept();
    let mut from = 0;
    while let Some(t) = locked.next_live(from) {
        locked.event(p, t);
        from = t + 1;
    }
}

/// Runs what is left of a run: each thread that is still live has its events round by round, and
/// each part that may begin then begins.
pub(crate) fn finish<J: Naming>(locked: &mut Locked<J>, p: &Checked)
    requires { IsOfProgram J.run p.now }
    ensures { IsOver locked.new.core }
{
    given_is_kept();
    run_live(locked, p);
    while locked.next(p) {
        locked.run_alone(p, 0);
        run_live(locked, p);
    }
}
