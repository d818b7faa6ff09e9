//! Acts that a thread may do, by what it is about.

ghost use Rattle.std.specs.Prelude.{◌≡◌, ℕ, None, false};
ghost use Rattle.jvm_types.specs.declared.program.Program.{Program};
ghost use Rattle.machine_types.specs.PlainState.{PlainThread, holding_at};
ghost use Rattle.machine_types.specs.PlainSteps.{plain_entered, plain_step, retaken, step_at};
ghost use Rattle.plain_threads.specs.Statuses.{plain_status_of};

use history_rule::Plain;
use machine_types::{Act, PlainStep};
use plain_threads::Status;

/// `false`: a monitor is held by another thread, so that this one does not enter it.
fn may_enter(q: &Plain, t: u8, m: u64) -> bool
    ensures { result ≡ false → (x : PlainThread)
        → plain_entered q.now.state t m x (holding_at q.now.state.holdings m) ≡ None }
{
    match q.holdings().at(m) {
        Some(h) => h.holder() == t,
        None => true,
    }
}

/// `false`: a monitor is held, so that no thread takes it back.
fn may_retake(q: &Plain, m: u64) -> bool
    ensures { result ≡ false → (t depth : ℕ) (x : PlainThread)
        → retaken q.now.state t m depth x (holding_at q.now.state.holdings m) ≡ None }
{
    q.holdings().at(m).is_none()
}

/// `false`: a thread that is about this does not do such an act.
fn may_do(q: &Plain, t: u8, act: Act, status: Status) -> bool
    ensures { result ≡ false → (p : Program) (x : PlainThread)
        → step_at p q.now.state t x act (plain_status_of status) ≡ None }
{
    match (act, status) {
        (Act::Begin, Status::Ready) => true,
        (Act::Begin, Status::Ended(_)) => t == 0,
        (Act::Do, Status::Run | Status::Throw(_, _)) => true,
        (Act::Enter, Status::Enter(m)) => may_enter(q, t, m),
        (Act::Exit, Status::Leave(_, _)) => true,
        (Act::Wait, Status::Wait(_)) => true,
        (Act::Notify(_), Status::Notify(_)) => true,
        (Act::NotifyAll, Status::NotifyAll(_)) => true,
        (Act::Retake, Status::Woken(m, _)) => may_retake(q, m),
        _ => false,
    }
}

/// `false`: the plain machine has no such step.
pub(crate) fn may_step(q: &Plain, step: PlainStep) -> bool
    ensures { result ≡ false → plain_step q.now.program.program q.now.state step ≡ None }
{
    match q.threads().get(step.thread) {
        Some(x) => may_do(q, step.thread, step.act, x.status()),
        None => false,
    }
}
