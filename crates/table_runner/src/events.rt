//! The events of one thread, with their accesses on the table.

ghost use Rattle.std.specs.Prelude.{◌≡◌, ◌<◌, Some, true, false};
ghost use Rattle.machine_types.specs.Core.{is_live, is_live_thread};
ghost use Rattle.machine_types.specs.Events.{wanted};
ghost use Rattle.machine_types.specs.Threads.{Thread};
ghost use Rattle.laws_states.specs.WorkLeft.{work_left};
ghost use Rattle.table_runner.specs.Accessing.{CanRun, IsBehindView};
ghost use Rattle.table_runner.specs.Going.{HasGoneByEvent, GoesAt, IsLaterThread, GoesOnAt};
ghost use Rattle.table_runner.specs.Going.{IsBehindViewAt};
ghost use Rattle.table_runner.specs.Handed.{steps_behind};

use crate::access::access;
use crate::going_on::run_on;
use crate::stepping::{CoreSeat, CoreTable};
use checked_program::Checked;
use frames::ThreadState;
use laws_states::{events_lessen_work, parts_keep_threads, runs_are_safe, runs_have_state};
use laws_threads::given_is_kept;
use std::hint::spin_loop;
use std::thread::yield_now;
use step_core::{apply_effect, step_or_want};

/// The next event of thread `t`, which is live, with this state.
#[inline(always)]
fn go(s: &mut ThreadState, seat: &mut CoreSeat, table: &CoreTable, p: &Checked, t: u8)
    requires live { is_live s.old.phase ≡ true }
    requires table { seat.old.table_id ≡ table.now.table_id }
    requires program { table.now.program ≡ p.now }
    requires run { CanRun p.now table.now.cfg table.now.table_id.words }
    requires stands { IsBehindView
        (record { program = p.now; cfg = table.now.cfg; number = t; state = s.old })
        seat.old.view }
    ensures seat { (seat.new.table_id ≡ seat.old.table_id) × (seat.new.id ≡ seat.old.id) }
    ensures counted { seat.new.steps
        ≡ steps_behind (wanted p.now s.old s.old.phase) seat.old.steps }
    ensures goes { HasGoneByEvent
        (record { program = p.now; cfg = table.now.cfg; number = t; state = s.old })
        seat.old.view s.new seat.new.view }
{
    runs_are_safe();
    parts_keep_threads();
    runs_have_state();
    if let Some(want) = step_or_want(s, p) {
        let got = access(table, seat, want.access, p, s, t);
        apply_effect(s, p, want.effect, got);
    }
}

/// The next event of thread `t` where it is here: `false` where it is not, or is not live, and then
/// nothing changes.
#[inline(always)]
pub(crate) fn go_at(
    place: &mut Option<ThreadState>,
    seat: &mut CoreSeat,
    table: &CoreTable,
    p: &Checked,
    t: u8,
) -> bool
    requires table { seat.old.table_id ≡ table.now.table_id }
    requires program { table.now.program ≡ p.now }
    requires run { CanRun p.now table.now.cfg table.now.table_id.words }
    requires stands { IsBehindViewAt p.now table.now.cfg t place.old seat.old.view }
    ensures live { result ≡ is_live_thread place.old }
    ensures seat { (seat.new.table_id ≡ seat.old.table_id) × (seat.new.id ≡ seat.old.id) }
    ensures still { result ≡ false → (place.new ≡ place.old) × (seat.new.view ≡ seat.old.view)
        × (seat.new.steps ≡ seat.old.steps) }
    ensures counted { result ≡ true → (x : Thread) → place.old ≡ Some x
        → seat.new.steps ≡ steps_behind (wanted p.now x x.phase) seat.old.steps }
    ensures goes { result ≡ true
        → GoesAt p.now table.now.cfg t place.old seat.old.view place.new seat.new.view }
{
    match place {
        Some(s) => {
            if !s.is_live() {
                return false;
            }
            go(s, seat, table, p, t);
            true
        }
        None => false,
    }
}

/// So many failed turns in a row are made without a pause of the thread of the system.
const SPINS: u32 = 16;

/// Lets another thread of the system go on where the last event was one more failed turn: the
/// monitor is another's, who may need the processor to let it go.
#[inline(always)]
fn give_way(before: u32, turns: u32) {
    if turns > before {
        if turns <= SPINS {
            spin_loop();
        } else {
            yield_now();
        }
    }
}

/// The next event of thread `t`, which is live, and those behind it, as long as it runs and each
/// goes on by the word that its access finds: they leave less for it to do.
#[inline(always)]
fn go_far(s: &mut ThreadState, seat: &mut CoreSeat, table: &CoreTable, p: &Checked, t: u8)
    requires live { is_live s.old.phase ≡ true }
    requires table { seat.old.table_id ≡ table.now.table_id }
    requires program { table.now.program ≡ p.now }
    requires run { CanRun p.now table.now.cfg table.now.table_id.words }
    requires stands { IsBehindView
        (record { program = p.now; cfg = table.now.cfg; number = t; state = s.old })
        seat.old.view }
    ensures seat { (seat.new.table_id ≡ seat.old.table_id) × (seat.new.id ≡ seat.old.id) }
    ensures goes { IsLaterThread
        (record { program = p.now; cfg = table.now.cfg; number = t; state = s.old })
        seat.old.view s.new seat.new.view }
    ensures less { work_left s.new < work_left s.old }
{
    given_is_kept();
    runs_are_safe();
    events_lessen_work();
    let before = s.turns();
    go(s, seat, table, p, t);
    give_way(before, s.turns());
    run_on(s, seat, table, p, table.entries(), t);
}

/// The events of thread `t` until it is not live. Each of them leaves less for it to do.
fn go_on(s: &mut ThreadState, seat: &mut CoreSeat, table: &CoreTable, p: &Checked, t: u8)
    requires table { seat.old.table_id ≡ table.now.table_id }
    requires program { table.now.program ≡ p.now }
    requires run { CanRun p.now table.now.cfg table.now.table_id.words }
    requires stands { IsBehindView
        (record { program = p.now; cfg = table.now.cfg; number = t; state = s.old })
        seat.old.view }
    ensures over { is_live s.new.phase ≡ false }
    ensures seat { (seat.new.table_id ≡ seat.old.table_id) × (seat.new.id ≡ seat.old.id) }
    ensures goes { IsLaterThread
        (record { program = p.now; cfg = table.now.cfg; number = t; state = s.old })
        seat.old.view s.new seat.new.view }
{
    while s.is_live() {
        go_far(s, seat, table, p, t);
    }
}

/// The same where it is here.
pub(crate) fn go_on_at(
    place: &mut Option<ThreadState>,
    seat: &mut CoreSeat,
    table: &CoreTable,
    p: &Checked,
    t: u8,
)
    requires table { seat.old.table_id ≡ table.now.table_id }
    requires program { table.now.program ≡ p.now }
    requires run { CanRun p.now table.now.cfg table.now.table_id.words }
    requires stands { IsBehindViewAt p.now table.now.cfg t place.old seat.old.view }
    ensures over { is_live_thread place.new ≡ false }
    ensures seat { (seat.new.table_id ≡ seat.old.table_id) × (seat.new.id ≡ seat.old.id) }
    ensures goes { GoesOnAt p.now table.now.cfg t place.old seat.old.view place.new
        seat.new.view }
{
    match place {
        Some(s) => go_on(s, seat, table, p, t),
        None => {}
    }
}
