//! Where the threads of a run made their last instructions, and how many failed turns in a row
//! they made behind these.

ghost use Rattle.std.specs.Prelude.{◌≡◌, slice_get, slice_set, replicate, IfOk};
ghost use Rattle.run_trace.specs.FailedTurns.{is_failed_turn, row_behind};
ghost use Rattle.run_trace.specs.Stands.{no_stand, stand_at, stand_then, stands_then};

use event_texts::{Before, Share, Spot};
use jvm_types::Rows;
use machine_types::Phase;
use replay_runner::Machine;
use std::alloc::{AllocError, Global};

/// Where a thread made its last instruction, which entered a section, or stands in one that an
/// attempt runs without its lock.
#[derive(Clone, Copy, Debug, PartialEq, Eq)]
pub struct Stand {
    pub last: Option<Spot>,
    /// The instruction that entered the section, while an attempt is open; else the last one.
    pub entry: Option<Spot>,
    /// How many failed turns in a row it has made last.
    pub row: u64,
}

const NO_STAND: Stand = Stand {
    last: None,
    entry: None,
    row: 0,
};

/// A thread before its event, and what the event stands for in the plain machine.
#[derive(Debug, Drop)]
pub struct Seen {
    pub before: Before,
    pub share: Share,
    /// The failed turns that it has counted since its last entry or wait.
    pub turns: u32,
    /// How many failed turns in a row it has made last.
    pub row: u64,
}

/// Whether an event is a failed turn, by what its thread has counted before and behind it, and the
/// phase behind it; the last one of a part is none.
pub fn is_failed_turn(was: u32, now: u32, phase: Phase) -> bool
    ensures { result ≡ is_failed_turn was now phase }
{
    match phase {
        Phase::Ending(_) => false,
        _ => was < now,
    }
}

/// How many failed turns in a row stand behind one, or behind another event.
fn row_behind(row: u64, failed: bool) -> u64
    ensures { result ≡ row_behind row failed }
{
    if failed { row.saturating_add(1) } else { 0 }
}

/// So many threads that have made no instruction.
pub fn no_stands(alloc: Global, threads: usize) -> Result<Rows<Stand>, AllocError>
    ensures { IfOk result (λ stands. stands ≡ replicate threads no_stand) }
{
    Ok(Rows::from_vec(vec![in alloc; NO_STAND; threads]?))
}

/// Where a thread made its last instruction.
pub fn stand_at(stands: &Rows<Stand>, t: u8) -> Stand
    ensures { result ≡ stand_at stands.now t }
{
    match stands.get(t as usize) {
        Some(stand) => *stand,
        None => NO_STAND,
    }
}

/// The same behind an event, where its thread has counted so many attempts that failed, and so many
/// failed turns, and is in that phase.
fn stand_then(stand: Stand, seen: &Seen, failed: u32, turns: u32, phase: Phase) -> Stand
    ensures { result ≡ stand_then stand seen.now failed turns phase }
{
    let spot = seen.before.spot;
    let row = row_behind(seen.row, is_failed_turn(seen.turns, turns, phase));
    match seen.before.attempt {
        None => Stand {
            last: spot,
            entry: spot,
            row,
        },
        Some(_) if seen.before.counts.failed < failed => Stand {
            last: stand.entry,
            entry: stand.entry,
            row,
        },
        Some(_) => Stand {
            last: spot,
            entry: stand.entry,
            row,
        },
    }
}

/// Where the threads made their last instructions behind an event of one.
pub fn settle_stand(stands: &mut Rows<Stand>, t: u8, seen: &Option<Seen>, machine: &Machine)
    ensures { stands.new
        ≡ stands_then stands.old t seen.now (slice_get machine.now.core.threads t) }
{
    if let (Some(seen), Some(s)) = (seen, machine.thread(t)) {
        let failed = s.counts().failed;
        let stand = stand_then(stand_at(stands, t), seen, failed, s.turns(), s.phase());
        if (t as usize) < stands.len() {
            stands.set(t as usize, stand);
        }
    }
}
