//! The end of a run.

ghost use Rattle.std.specs.Prelude.{◌≡◌, ◌≤◌, ◌∷◌, [], Some, IsSome};
ghost use Rattle.machine_types.specs.Core.{done_end};
ghost use Rattle.machine_types.specs.Threads.{Thread};
ghost use Rattle.table_runner.specs.Ending.{reported};

use crate::rule::MOST_THREADS;
use frames::ThreadState;
use jvm_types::{End, Room, Rows, ThreadReport};

/// How `done` ended, by the place of thread 0.
pub(crate) fn done_end(first: &Option<ThreadState>) -> End
    requires { IsSome first.now }
    ensures { (x : Thread) → first.now ≡ Some x → result ≡ done_end (x ∷ []) }
{
    match first {
        Some(first) => run_parts::done_end(first),
        None => unreachable!(),
    }
}

/// The reports of the threads, in order.
pub(crate) fn reports_of(
    threads: &mut [Option<ThreadState>; MOST_THREADS],
    mut room: Room<ThreadReport>,
) -> Rows<ThreadReport>
    requires { (room.items ≡ []) × (9 ≤ room.spare) }
    ensures { result ≡ reported threads.old }
{
    for i in 0..MOST_THREADS {
        if let Some(thread) = threads[i].take() {
            room.push(thread.into_report());
        }
    }
    room.into_rows()
}
