//! The threads at the start of a run.

ghost use Rattle.std.specs.Prelude.{◌≡◌, ◌+◌, map, IfOk};
ghost use Rattle.std.specs.List.{range_with_len};
ghost use Rattle.machine_types.specs.Core.{start_thread};
ghost use Rattle.laws_states.specs.RunFacts.{HaveWidth};

use checked_program::Checked;
use frames::ThreadState;
use machine_types::Config;
use std::alloc::{AllocError, Global};

/// Tells that the limits are numbers of 32 bits.
pub fn have_width(_cfg: Config)
    ensures { HaveWidth _cfg }
{}

/// The threads at the start: thread 0, and the workers.
pub fn start_threads(
    alloc: Global,
    p: &Checked,
    cfg: &Config,
) -> Result<Vec<ThreadState>, AllocError>
    ensures { IfOk result (λ threads.
        threads.items
        ≡ map (start_thread p.now cfg.now) (range_with_len 0 (p.now.program.workers + 1))) }
{
    let count = p.workers() as usize + 1;
    let mut threads = Vec::with_capacity(alloc, count)?;
    for number in 0..count {
        threads.push(ThreadState::start(alloc, number as u8, p, cfg)?)?;
    }
    Ok(threads)
}
