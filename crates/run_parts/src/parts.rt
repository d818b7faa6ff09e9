//! When a part may begin, and that each thread by itself takes its share of it.

ghost use Rattle.std.specs.Prelude.{◌≡◌, ◌∷◌, List};
ghost use Rattle.machine_types.specs.Core.{ended_by, may_begin};
ghost use Rattle.machine_types.specs.Parts.{has_finished, has_returned};
ghost use Rattle.machine_types.specs.Threads.{Thread};
ghost use Rattle.run_parts.specs.Parts.{SharesAreNext, have_finished};

use frames::ThreadState;
use jvm_types::End;

/// Whether a thread's part has returned.
fn has_returned(thread: &ThreadState) -> bool
    ensures { result ≡ ended_by has_returned thread.now.phase }
{
    match thread.end() {
        Some(End::Returned) => true,
        _ => false,
    }
}

/// Whether a thread's part has returned or was ended by an exception.
pub fn has_finished(thread: &ThreadState) -> bool
    ensures { result ≡ ended_by has_finished thread.now.phase }
{
    match thread.end() {
        Some(End::Returned | End::Uncaught(_)) => true,
        _ => false,
    }
}

/// Whether the part of each of these threads has.
pub fn have_finished(workers: &[ThreadState]) -> bool
    ensures { result ≡ have_finished workers.now }
{
    workers.iter().all(|worker| has_finished(worker))
}

/// Whether the next part may begin, by thread 0 and by whether all workers have finished: that of
/// the workers when `init` has returned, or `done` when each worker has returned or was ended by an
/// exception.
pub fn may_begin(first: &ThreadState, finished: bool) -> bool
    ensures { (workers : List Thread) → finished ≡ have_finished workers
        → result ≡ may_begin (first.now ∷ workers) }
{
    match first.part() {
        0 => has_returned(first),
        1 => finished,
        _ => false,
    }
}

/// What a part begins with is what each thread's own share makes of it: of every thread where the
/// workers begin, of thread 0 alone where `done` does. `ThreadState::begin_part` takes a share.
pub fn shares_are_next()
    ensures { SharesAreNext }
{}
