//! The begin of a part, by places that may have a thread.

ghost use Rattle.std.specs.Prelude.{◌≡◌, ℕ, List, IsSome, None, Some, false, option_map, ◌∷◌};
ghost use Rattle.std.specs.List.{list_all};
ghost use Rattle.machine_types.specs.Core.{may_begin};
ghost use Rattle.machine_types.specs.Threads.{Thread};
ghost use Rattle.run_parts.specs.Parts.{own_begun};
ghost use Rattle.table_rule.specs.Views.{HasThreads, held_in};
ghost use Rattle.table_runner.specs.Parts.{AllBegun, IsPartBegun, thread_finished};

use crate::rule::MOST_THREADS;
use frames::ThreadState;

fn is_finished(place: &Option<ThreadState>) -> bool
    ensures { result ≡ thread_finished place.now }
{
    match place {
        Some(thread) => run_parts::has_finished(thread),
        None => true,
    }
}

fn are_finished(places: &[Option<ThreadState>]) -> bool
    ensures { result ≡ list_all thread_finished places.now }
{
    places.iter().all(|place| is_finished(place))
}

fn may_begin_by(first: &Option<ThreadState>, workers: &[Option<ThreadState>]) -> bool
    ensures some { (x : Thread) (ts : List Thread) → first.now ≡ Some x → HasThreads workers.now ts
        → result ≡ may_begin (x ∷ ts) }
    ensures none { first.now ≡ None → result ≡ false }
{
    match first {
        Some(first) => run_parts::may_begin(first, are_finished(workers)),
        None => false,
    }
}

/// Whether the next part may begin, where these are all threads.
pub(crate) fn may_begin(threads: &[Option<ThreadState>]) -> bool
    ensures { (ts : List Thread) → HasThreads threads.now ts → result ≡ may_begin ts }
{
    match threads {
        [first, workers @ ..] => may_begin_by(first, workers),
        [] => false,
    }
}

fn begin_at(place: &mut Option<ThreadState>)
    ensures { place.new ≡ option_map own_begun place.old }
{
    if let Some(thread) = place {
        thread.begin_part();
    }
}

fn begin_all(threads: &mut [Option<ThreadState>; MOST_THREADS])
    ensures { AllBegun threads.old threads.new }
{
    for i in 0..MOST_THREADS {
        begin_at(&mut threads[i]);
    }
}

fn part_of(place: &Option<ThreadState>) -> u8
    requires { IsSome place.now }
    ensures { (x : Thread) → place.now ≡ Some x → result ≡ x.part }
{
    match place {
        Some(thread) => thread.part(),
        None => unreachable!(),
    }
}

/// Each thread takes its share of the begin of a part: all of them where the workers begin, thread
/// 0 alone where `done` does.
pub(crate) fn begin_parts(threads: &mut [Option<ThreadState>; MOST_THREADS])
    requires { IsSome (held_in threads.old 0) }
    ensures { IsPartBegun (held_in threads.old 0) threads.old threads.new }
{
    if part_of(&threads[0]) == 0 {
        begin_all(threads);
    } else {
        begin_at(&mut threads[0]);
    }
}
