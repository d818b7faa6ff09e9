//! What becomes of an attempt by an event in it.

ghost use Rattle.std.specs.Prelude.{◌≡◌};
ghost use Rattle.machine_types.specs.Frames.{top_of};
ghost use Rattle.machine_types.specs.History.{fate as the_fate, fate_by, leave_fate, run_fate};
ghost use Rattle.machine_types.specs.Monitors.{claim};
ghost use Rattle.machine_types.specs.Threads.{Attempt, head_of};
ghost use Rattle.event_texts.specs.Acts.{fate_of};

use crate::acts::{is_free, tried};
use crate::doing::next_doing;
use checked_program::Checked;
use frames::ThreadState;
use instr_effects::is_checked;
use machine_types::{AttemptHead, Phase};

/// What an event inside an attempt does with it.
#[derive(Clone, Copy, Debug, PartialEq, Eq)]
pub enum Fate {
    GoesOn,
    Fails,
    Finishes,
}

fn fate_by(same: bool, fate: Fate) -> Fate
    ensures { fate_of result ≡ fate_by same (fate_of fate) }
{
    if same { fate } else { Fate::Fails }
}

fn run_fate(s: &ThreadState, p: &Checked, attempt: AttemptHead, got: u64) -> Fate
    ensures { (a : Attempt) → head_of a ≡ attempt
        → fate_of result ≡ run_fate p.now a (top_of p.now.program s.now.frames) got }
{
    match next_doing(s, p) {
        Some(d) if is_checked(d.pc, d.effect) => {
            fate_by(is_free(got, attempt.noted), Fate::GoesOn)
        }
        _ => Fate::GoesOn,
    }
}

fn leave_fate(s: &ThreadState, m: u32, got: u64) -> Fate
    ensures { fate_of result ≡ leave_fate (claim s.now m) got }
{
    match tried(s, m) {
        Some(a) if a.inner == 0 => fate_by(is_free(got, a.noted), Fate::Finishes),
        _ => Fate::GoesOn,
    }
}

/// Of the event that comes next and finds this.
pub fn fate_at(s: &ThreadState, p: &Checked, attempt: AttemptHead, got: u64) -> Fate
    ensures { (a : Attempt) → head_of a ≡ attempt
        → fate_of result ≡ the_fate p.now s.now a s.now.phase got }
{
    match s.phase() {
        Phase::Run => run_fate(s, p, attempt, got),
        Phase::Throw(_, _) => fate_by(is_free(got, attempt.noted), Fate::GoesOn),
        Phase::Leave(m, _) => leave_fate(s, m, got),
        _ => Fate::GoesOn,
    }
}
