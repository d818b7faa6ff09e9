//! What the word that an access found makes of the thread.

ghost use Rattle.std.specs.Prelude.{◌≡◌, ◌≤◌, true};
ghost use Rattle.jvm_types.specs.declared.limits.TheConstants.{MOST_WORKERS};
ghost use Rattle.machine_types.specs.Events.{moved};
ghost use Rattle.machine_types.specs.FoundWords.{Fits};
ghost use Rattle.machine_types.specs.Lawful.{IsLawful};
ghost use Rattle.fat_monitor.specs.Answering.{CanAnswer};
ghost use Rattle.fat_monitor.specs.Asking.{asks};

use crate::leaving::{exit_last, fatten, grow, let_go};
use crate::taking::{acquire, take_fat, take_flat};
use crate::waiting::{choose, give_up, look, retake};
use checked_program::Checked;
use frames::{ThreadState, runs};
use laws_threads::held_has_room;
use machine_types::Phase;

/// In a phase that asks for a word.
fn answer_in(s: &mut ThreadState, p: &Checked, phase: Phase, got: u64)
    requires asks { asks s.old phase ≡ true }
    requires program { p.now ≡ s.old.program }
    requires number { s.old.number ≤ MOST_WORKERS }
    requires can { CanAnswer p.now s.old phase got }
    ensures { s.new ≡ moved p.now s.old phase got }
{
    match phase {
        Phase::Acquire(m) => acquire(s, m, got),
        Phase::Take(m, count) => take_flat(s, m, count, got),
        Phase::Flag(m, _) => s.set_phase(Phase::Acquire(m)),
        Phase::TakeFat(m, r) => take_fat(s, m, r, got),
        Phase::Leave(m, after) => exit_last(s, p, m, after, got),
        Phase::Grow(m, toward) => grow(s, m, toward, got),
        Phase::FlatOut(m, after) => let_go(s, p, m, after),
        Phase::Own(m, r, toward) => s.set_phase(Phase::FatIn(m, r, toward)),
        Phase::FatIn(m, r, toward) => fatten(s, m, r, toward),
        Phase::WaitBit(m, r) => s.set_phase(Phase::WaitOut(m, r)),
        Phase::WaitOut(m, r) => give_up(s, m, r),
        Phase::WaitLook(m, r, depth) => look(s, m, r, depth, got),
        Phase::Retake(m, r, depth) => retake(s, m, r, depth, got),
        Phase::NotifyLook(m, r) => choose(s, m, r, got),
        Phase::NotifyOne(_, _, _) | Phase::NotifyAll(_, _) => runs(s),
        _ => unreachable!(),
    }
}

/// What the thread becomes by the word that its access found, where it asked for one.
pub fn answer(s: &mut ThreadState, p: &Checked, got: u64)
    requires asks { asks s.old s.old.phase ≡ true }
    requires program { p.now ≡ s.old.program }
    requires lawful { IsLawful p.now s.old }
    requires fits { Fits p.now s.old got }
    ensures { s.new ≡ moved p.now s.old s.old.phase got }
{
    held_has_room();
    // its limits are `u32`s, its frames are at most 256, and there are at most 9 threads
    let _limits = s.config();
    let _depth = s.depth();
    let _workers = p.workers();
    answer_in(s, p, s.phase(), got);
}
