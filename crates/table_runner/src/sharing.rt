//! Seats that are split and joined, and that a part begins.

ghost use Rattle.std.specs.Prelude.{◌≡◌, ◌+◌, ◌<◌, IsSome, Some, suc};
ghost use Rattle.table_rule.specs.Views.{held_in};
ghost use Rattle.table_runner.specs.Sharing.{CanBegin, HasBegun, only_thread, merged, view_without};

use crate::rule::{Begins, Cuts, Joins, MOST_THREADS, Numbering, Starting};
use crate::stepping::{CoreSeat, CoreTable};
use frames::ThreadState;
use std::marker::Brand;

/// Thread `_t`, which `B` names, goes into a view of its own.
fn cut_by<B: Numbering>(table: &CoreTable, seat: &mut CoreSeat, _t: u8) -> CoreSeat
    requires number { B.number ≡ _t }
    requires table { seat.old.table_id ≡ table.now.table_id }
    requires words { 0 < table.now.table_id.words }
    requires small { _t < 9 }
    ensures seat { (seat.new.table_id ≡ seat.old.table_id) × (seat.new.id ≡ seat.old.id)
        × (seat.new.view ≡ view_without _t seat.old.view)
        × (seat.new.steps ≡ suc seat.old.steps) }
    ensures other { (result.table_id ≡ seat.old.table_id)
        × (result.view ≡ only_thread _t seat.old.view) × (result.steps ≡ 0) }
{
    table.split_seat::<Cuts<B>>(seat)
}

/// Thread `t` of the view goes into a view of its own.
pub(crate) fn cut(table: &CoreTable, seat: &mut CoreSeat, t: u8) -> CoreSeat
    requires table { seat.old.table_id ≡ table.now.table_id }
    requires words { 0 < table.now.table_id.words }
    requires small { t < 9 }
    ensures seat { (seat.new.table_id ≡ seat.old.table_id) × (seat.new.id ≡ seat.old.id)
        × (seat.new.view ≡ view_without t seat.old.view)
        × (seat.new.steps ≡ suc seat.old.steps) }
    ensures other { (result.table_id ≡ seat.old.table_id)
        × (result.view ≡ only_thread t seat.old.view) × (result.steps ≡ 0) }
{
    cut_by::<Brand>(table, seat, t)
}

/// The view takes in another, which is spent.
pub(crate) fn glue(table: &CoreTable, seat: &mut CoreSeat, other: CoreSeat)
    requires table { seat.old.table_id ≡ table.now.table_id }
    requires other { other.table_id ≡ table.now.table_id }
    requires words { 0 < table.now.table_id.words }
    ensures seat { (seat.new.table_id ≡ seat.old.table_id) × (seat.new.id ≡ seat.old.id)
        × (seat.new.view ≡ merged seat.old.view other.view)
        × (seat.new.steps ≡ suc (seat.old.steps + other.steps)) }
{
    table.join_seat::<Joins>(seat, other);
}

/// The part that `B` names begins: a step that loads word 0.
fn begin_by<B: Starting>(
    table: &CoreTable,
    seat: &mut CoreSeat,
    _threads: &[Option<ThreadState>; MOST_THREADS],
)
    requires part { B.part
        ≡ Some (record {
          program = table.now.program;
          cfg = table.now.cfg;
          threads = _threads.now;
        }) }
    requires table { seat.old.table_id ≡ table.now.table_id }
    requires words { 0 < table.now.table_id.words }
    requires begins { CanBegin table.now.program table.now.cfg
        seat.old.view _threads.now }
    ensures seat { (seat.new.table_id ≡ seat.old.table_id) × (seat.new.id ≡ seat.old.id)
        × (seat.new.steps ≡ suc seat.old.steps) }
    ensures begins { HasBegun (record {
      program = table.now.program;
      cfg = table.now.cfg;
      threads = _threads.now;
    }) seat.new.view }
{
    let _nothing = table.load::<Begins<B>>(seat, 0);
}

/// A part begins with these threads, of which the seat knows each as it is.
pub(crate) fn begin(
    table: &CoreTable,
    seat: &mut CoreSeat,
    threads: &[Option<ThreadState>; MOST_THREADS],
)
    requires table { seat.old.table_id ≡ table.now.table_id }
    requires words { 0 < table.now.table_id.words }
    requires begins { CanBegin table.now.program table.now.cfg
        seat.old.view threads.now }
    ensures seat { (seat.new.table_id ≡ seat.old.table_id) × (seat.new.id ≡ seat.old.id)
        × (seat.new.steps ≡ suc seat.old.steps) }
    ensures begins { HasBegun (record {
      program = table.now.program;
      cfg = table.now.cfg;
      threads = threads.now;
    }) seat.new.view }
{
    begin_by::<Brand>(table, seat, threads);
}
