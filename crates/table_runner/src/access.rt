//! The access of an event, as one step on one word of the table.

ghost use Rattle.std.specs.Prelude.{◌≡◌, Some, suc};
ghost use Rattle.step_core.specs.Progress.{got_to};
ghost use Rattle.step_core.specs.Sections.{entering};
ghost use Rattle.step_core.specs.Sharing.{at_element, leaving_at, taking};
ghost use Rattle.table_runner.specs.Accessing.{Asks, CanMake, IsEventMade, IsNextEventOf, Tells};
ghost use Rattle.table_runner.specs.Onward.{event_on};
ghost use Rattle.table_runner.specs.Stepping.{KeepsSeat};

use crate::rule::{Makes, Making, Rests};
use crate::stepping::{CoreSeat, CoreTable};
use checked_program::Checked;
use frames::ThreadState;
use laws_states::runs_are_safe;
use machine_types::Access;
use std::marker::Brand;
use step_core::{CurrentInsn, Exit, RunLoop};

/// The access of the event that `B` names: one step on one word, which tells what it found.
#[inline(always)]
fn perform<B: Making>(table: &CoreTable, seat: &mut CoreSeat, a: Access) -> u64
    requires table { seat.old.table_id ≡ table.now.table_id }
    requires run { IsNextEventOf B.event table.now.program table.now.cfg }
    requires asks { Asks B.event seat.old.view a table.now.table_id.words }
    ensures seat { KeepsSeat seat.old seat.new }
    ensures counted { seat.new.steps ≡ suc seat.old.steps }
    ensures tells { Tells B.event seat.old.view result seat.new.view }
{
    runs_are_safe();
    match a {
        Access::Load(w) => table.load::<Makes<B>>(seat, w as usize),
        // the table's own store does not tell the word that was there, which the clause names
        Access::Store(w, v) => table.swap::<Makes<B>>(seat, w as usize, v),
        Access::Cas(w, is, v) => table.compare_exchange::<Makes<B>>(seat, w as usize, is, v),
        Access::Add(w, v) => table.fetch_add::<Makes<B>>(seat, w as usize, v),
        Access::Or(w, v) => table.fetch_or::<Makes<B>>(seat, w as usize, v),
        Access::And(w, v) => table.fetch_and::<Makes<B>>(seat, w as usize, v),
        Access::Rest => {
            let _nothing = table.load::<Rests<B>>(seat, 0);
            0
        }
    }
}

/// The same where the thread is this one.
#[inline(always)]
fn access_of<B: Making>(
    table: &CoreTable,
    seat: &mut CoreSeat,
    a: Access,
    _p: &Checked,
    _s: &ThreadState,
    _t: u8,
) -> u64
    requires event { B.event ≡ Some (record
        { program = _p.now; cfg = table.now.cfg; number = _t; state = _s.now }) }
    requires table { seat.old.table_id ≡ table.now.table_id }
    requires run { IsNextEventOf B.event table.now.program table.now.cfg }
    requires asks { Asks B.event seat.old.view a table.now.table_id.words }
    ensures seat { KeepsSeat seat.old seat.new }
    ensures counted { seat.new.steps ≡ suc seat.old.steps }
    ensures tells { Tells B.event seat.old.view result seat.new.view }
{
    perform::<B>(table, seat, a)
}

/// The access that the next event of thread `t` wants, where `s` is its state: it tells what it
/// found, and the seat knows what the thread becomes by that.
#[inline(always)]
pub(crate) fn access(
    table: &CoreTable,
    seat: &mut CoreSeat,
    a: Access,
    p: &Checked,
    s: &ThreadState,
    t: u8,
) -> u64
    requires table { seat.old.table_id ≡ table.now.table_id }
    requires run { table.now.program ≡ p.now }
    requires asks { CanMake
        (record { program = p.now; cfg = table.now.cfg; number = t; state = s.now })
        seat.old.view a table.now.table_id.words }
    ensures seat { KeepsSeat seat.old seat.new }
    ensures counted { seat.new.steps ≡ suc seat.old.steps }
    ensures made { IsEventMade
        (record { program = p.now; cfg = table.now.cfg; number = t; state = s.now })
        seat.old.view result seat.new.view }
{
    access_of::<Brand>(table, seat, a, p, s, t)
}

/// The same where the thread is at its next instruction, and its frames are at hand.
#[inline(always)]
pub(crate) fn access_at<B: Making>(
    table: &CoreTable,
    seat: &mut CoreSeat,
    a: Access,
    _s: &ThreadState,
    _at: &RunLoop,
    _t: u8,
) -> u64
    requires event { B.event ≡ Some (event_on table.now _t
        (got_to _s.now _at.now)) }
    requires table { seat.old.table_id ≡ table.now.table_id }
    requires run { IsNextEventOf B.event table.now.program table.now.cfg }
    requires asks { Asks B.event seat.old.view a table.now.table_id.words }
    ensures seat { KeepsSeat seat.old seat.new }
    ensures tells { Tells B.event seat.old.view result seat.new.view }
{
    perform::<B>(table, seat, a)
}

/// The same where the thread accesses an element behind the look at its header.
#[inline(always)]
pub(crate) fn access_element<B: Making>(
    table: &CoreTable,
    seat: &mut CoreSeat,
    a: Access,
    _s: &ThreadState,
    _at: &RunLoop,
    _word: u32,
    _stored: Option<u64>,
    _t: u8,
) -> u64
    requires event { B.event ≡ Some (event_on table.now _t
        (at_element (got_to _s.now _at.now) _word _stored)) }
    requires table { seat.old.table_id ≡ table.now.table_id }
    requires run { IsNextEventOf B.event table.now.program table.now.cfg }
    requires asks { Asks B.event seat.old.view a table.now.table_id.words }
    ensures seat { KeepsSeat seat.old seat.new }
    ensures tells { Tells B.event seat.old.view result seat.new.view }
{
    perform::<B>(table, seat, a)
}

/// The same where the thread is to enter a monitor.
#[inline(always)]
pub(crate) fn access_entering<B: Making>(
    table: &CoreTable,
    seat: &mut CoreSeat,
    a: Access,
    _s: &ThreadState,
    _at: &RunLoop,
    _monitor: u32,
    _t: u8,
) -> u64
    requires event { B.event ≡ Some (event_on table.now _t
        (entering _s.now _at.now.frames _at.now.count _monitor)) }
    requires table { seat.old.table_id ≡ table.now.table_id }
    requires run { IsNextEventOf B.event table.now.program table.now.cfg }
    requires asks { Asks B.event seat.old.view a table.now.table_id.words }
    ensures seat { KeepsSeat seat.old seat.new }
    ensures tells { Tells B.event seat.old.view result seat.new.view }
{
    perform::<B>(table, seat, a)
}

/// The same where the thread is to take a flat lock.
#[inline(always)]
pub(crate) fn access_taking<B: Making>(
    table: &CoreTable,
    seat: &mut CoreSeat,
    a: Access,
    _s: &ThreadState,
    _at: &RunLoop,
    _monitor: u32,
    _noted: u64,
    _t: u8,
) -> u64
    requires event { B.event ≡ Some (event_on table.now _t
        (taking _s.now _at.now.frames _at.now.count _monitor _noted)) }
    requires table { seat.old.table_id ≡ table.now.table_id }
    requires run { IsNextEventOf B.event table.now.program table.now.cfg }
    requires asks { Asks B.event seat.old.view a table.now.table_id.words }
    ensures seat { KeepsSeat seat.old seat.new }
    ensures tells { Tells B.event seat.old.view result seat.new.view }
{
    perform::<B>(table, seat, a)
}

/// The same where the thread is to leave a monitor.
#[inline(always)]
pub(crate) fn access_leaving<B: Making>(
    table: &CoreTable,
    seat: &mut CoreSeat,
    a: Access,
    _s: &ThreadState,
    _at: &RunLoop,
    _place: &CurrentInsn,
    _exit: Exit,
    _t: u8,
) -> u64
    requires event { B.event ≡ Some (event_on table.now _t
        (leaving_at _s.now _at.now _place.now _exit.monitor _exit.after)) }
    requires table { seat.old.table_id ≡ table.now.table_id }
    requires run { IsNextEventOf B.event table.now.program table.now.cfg }
    requires asks { Asks B.event seat.old.view a table.now.table_id.words }
    ensures seat { KeepsSeat seat.old seat.new }
    ensures tells { Tells B.event seat.old.view result seat.new.view }
{
    perform::<B>(table, seat, a)
}
