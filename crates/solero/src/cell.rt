//! A run of a cell.
ghost use Rattle.std.specs.Prelude.{◌≡◌, IfOk};
ghost use Rattle.solero.specs.Answer.{IsCellReport, cell_finish as the_cell_finish};
ghost use Rattle.command_words.specs.Requests.{asked_by};

use cell_runner::run_cell;
use command_words::Request;
use jvm_types::{Bytes, Gate};
use program_answers::finish::Finish;
use run_texts::{CellCounts, cell_report};
use std::alloc::{AllocError, Global};
use std::thread::Threads;

/// How a run of a cell finished, and its report.
pub fn ran_cell<R: Threads + Sync, G: Gate + Sync>(
    rt: &R,
    alloc: Global,
    gate: &G,
    request: &Request,
) -> Result<(Finish, Bytes), AllocError>
    ensures { IfOk result (λ r. IsCellReport (asked_by request.now) r.0 r.1) }
{
    let came = run_cell(
        rt,
        alloc,
        gate,
        request.threads,
        request.size,
        request.cfg.turns,
    )?;
    let counts = CellCounts {
        threads: request.threads,
        size: request.size,
        writes: came.writes,
        reads: came.reads,
        stopped: came.stopped,
    };
    Ok((cell_finish(came.stopped), cell_report(alloc, counts)?))
}

// How a run of a cell finished, of whose workers so many stopped at the limit of failed turns.
fn cell_finish(stopped: u8) -> Finish
    ensures { result ≡ the_cell_finish stopped }
{
    if stopped > 0 {
        Finish::Limited
    } else {
        Finish::Returned
    }
}
