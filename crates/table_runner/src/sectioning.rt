//! The next instruction of a thread that runs, with its frames at hand, where it enters or leaves a
//! monitor.

ghost use Rattle.std.specs.Prelude.{◌≡◌, None};
ghost use Rattle.step_core.specs.Progress.{IsAtPlace, IsOneOn, got_to};
ghost use Rattle.step_core.specs.Sections.{entering};
ghost use Rattle.step_core.specs.Sharing.{IsSharedExit, leaving_at};
ghost use Rattle.table_runner.specs.Onward.{IsFurtherIf, IsItsExit, MayGoFrom, event_on};
ghost use Rattle.table_runner.specs.Onward.{found_by_section, thread_back};
ghost use Rattle.table_runner.specs.Stepping.{KeepsSeat};
ghost use Rattle.table_runner.specs.declared.sectioning.Section.TheVariants.{Made as HasMade};

use crate::access::{access_entering, access_leaving, access_taking};
use crate::stepping::{CoreSeat, CoreTable};
use crate::touching::onward_laws;
use frames::ThreadState;
use machine_types::Access;
use std::marker::Brand;
use step_core::{CurrentInsn, Exit, RunLoop};

/// What came of an instruction that may enter or leave a monitor.
#[derive(Clone, Copy)]
pub enum Section {
    /// It has been made, and the thread goes on behind the monitor's entry or exit.
    Made,
    /// Nothing of it has been made.
    Stays,
    /// The thread is to enter this monitor.
    Enters(u32),
    /// The same, and its lock word has been found.
    EntersBy(u32, u64),
    /// It is to take the flat lock, whose count was noted, and the word has been found.
    TakesBy(u32, u64, u64),
    /// It is to leave a monitor, and the word has been found.
    LeavesBy(Exit, u64),
}

/// The entry of a monitor: by an attempt that begins, or by its flat lock, where that is free.
#[inline(always)]
fn enter(
    s: &mut ThreadState,
    at: &RunLoop,
    _place: &CurrentInsn,
    monitor: u32,
    seat: &mut CoreSeat,
    table: &CoreTable,
    t: u8,
) -> Section
    requires program { at.now.program ≡ table.now.program }
    requires outside { s.old.attempt ≡ None }
    requires stands { MayGoFrom table.now seat.old t
        (entering s.old at.now.frames at.now.count monitor) }
    ensures seat { KeepsSeat seat.old seat.new }
    ensures onward { IsFurtherIf
        (event_on table.now t (entering s.old at.now.frames at.now.count monitor))
        seat.old.view (thread_back s.new at.now (leaving_at s.new at.now _place.now) result)
        (found_by_section result) seat.new.view }
    ensures leaves { IsItsExit (λ exit. IsAtPlace s.new at.now _place.now
        × IsSharedExit s.new at.now _place.now exit) result }
{
    onward_laws();
    if s.held(monitor).is_some() {
        return Section::Enters(monitor);
    }
    let may = at.may_try(s, monitor);
    let got = access_entering::<Brand>(table, seat, Access::Load(monitor), s, at, monitor, t);
    if may {
        if at.begin_attempt(s, monitor, got) {
            return Section::Made;
        }
        return Section::EntersBy(monitor, got);
    }
    let Some(noted) = at.free_count(s, monitor, got) else {
        return Section::EntersBy(monitor, got);
    };
    let a = at.take_wants(s, monitor, noted);
    let found = access_taking::<Brand>(table, seat, a, s, at, monitor, noted, t);
    if at.take_by(s, monitor, noted, found) {
        return Section::Made;
    }
    Section::TakesBy(monitor, noted, found)
}

/// The exit of a monitor, where one access makes it.
#[inline(always)]
fn leave<'a>(
    s: &mut ThreadState,
    at: &mut RunLoop<'a>,
    place: &CurrentInsn<'a>,
    seat: &mut CoreSeat,
    table: &CoreTable,
    t: u8,
) -> Section
    requires here { IsAtPlace s.old at.old place.now }
    requires program { at.old.program ≡ table.now.program }
    requires stands { MayGoFrom table.now seat.old t (got_to s.old at.old) }
    ensures seat { KeepsSeat seat.old seat.new }
    ensures program { at.new.program ≡ at.old.program }
    ensures one { result ≡ HasMade → IsOneOn at.old at.new }
    ensures onward { IsFurtherIf (event_on table.now t (got_to s.old at.old)) seat.old.view
        (thread_back s.new at.new (leaving_at s.new at.new place.now) result)
        (found_by_section result) seat.new.view }
    ensures leaves { IsItsExit (λ exit. IsAtPlace s.new at.new place.now
        × IsSharedExit s.new at.new place.now exit) result }
{
    onward_laws();
    let Some(exit) = at.exit_wants(s, place) else {
        return Section::Stays;
    };
    let got = access_leaving::<Brand>(table, seat, exit.access, s, at, place, exit, t);
    if at.leave_by(s, place, exit, got) {
        at.go_behind(s, place, exit);
        return Section::Made;
    }
    Section::LeavesBy(exit, got)
}

/// The next instruction, where it enters or leaves a monitor, as far as its accesses find what lets
/// it go on.
#[inline(always)]
pub(crate) fn pass_monitor<'a>(
    s: &mut ThreadState,
    at: &mut RunLoop<'a>,
    place: &CurrentInsn<'a>,
    seat: &mut CoreSeat,
    table: &CoreTable,
    t: u8,
) -> Section
    requires here { IsAtPlace s.old at.old place.now }
    requires program { at.old.program ≡ table.now.program }
    requires stands { MayGoFrom table.now seat.old t (got_to s.old at.old) }
    ensures seat { KeepsSeat seat.old seat.new }
    ensures program { at.new.program ≡ at.old.program }
    ensures one { result ≡ HasMade → IsOneOn at.old at.new }
    ensures onward { IsFurtherIf (event_on table.now t (got_to s.old at.old)) seat.old.view
        (thread_back s.new at.new (leaving_at s.new at.new place.now) result)
        (found_by_section result) seat.new.view }
    ensures leaves { IsItsExit (λ exit. IsAtPlace s.new at.new place.now
        × IsSharedExit s.new at.new place.now exit) result }
{
    onward_laws();
    match at.begin_entry(s, place) {
        Some(monitor) => enter(s, at, place, monitor, seat, table, t),
        None => leave(s, at, place, seat, table, t),
    }
}
