//! The table of a run at its start.

ghost use Rattle.std.specs.Prelude.{◌≡◌, ◌≤◌, length, replicate, None, IfOk};
ghost use Rattle.machine_types.specs.Settings.{AreSettings};
ghost use Rattle.table_rule.specs.Views.{HasThreads};
ghost use Rattle.table_runner.specs.Running.{AtStart};

use crate::hands::Hands;
use crate::rule::MOST_THREADS;
use crate::stepping::CoreTable;
use checked_program::Checked;
use frames::ThreadState;
use jvm_types::Room;
use machine_types::Config;
use run_parts::{have_width, start_threads, start_words};
use std::alloc::{AllocError, Global};

/// A place for each number of a thread, and no thread.
fn no_threads() -> [Option<ThreadState>; MOST_THREADS]
    ensures { result ≡ replicate 9 None }
{
    [None, None, None, None, None, None, None, None, None]
}

/// The threads, each at its number.
fn placed(mut threads: Vec<ThreadState>) -> [Option<ThreadState>; MOST_THREADS]
    requires { length threads.items ≤ 9 }
    ensures { HasThreads result threads.items }
{
    let mut places = no_threads();
    while let Some(thread) = threads.pop() {
        places[threads.len()] = Some(thread);
    }
    places
}

/// The table of a run at its start, and hands that hold all threads. It takes all the memory that
/// the calls of its hands will use; its error is want of memory.
pub fn table(alloc: Global, p: &Checked, cfg: &Config) -> Result<(CoreTable, Hands), AllocError>
    requires { AreSettings cfg.now }
    ensures run { IfOk result
        (λ t. (t.0.program ≡ p.now) × (t.0.cfg ≡ cfg.now)) }
    ensures start { IfOk result
        (λ t. AtStart t.0.table_id t.0.program t.0.cfg t.1) }
{
    have_width(*cfg);
    let words = start_words(alloc, p.program())?;
    let threads = placed(start_threads(alloc, p, cfg)?);
    let reports = Room::with_room(alloc, MOST_THREADS)?;
    let (table, seat) = CoreTable::open(alloc, p, cfg, words.as_slice())?;
    Ok((table, Hands::held(p, cfg, seat, threads, reports)))
}
