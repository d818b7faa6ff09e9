//! What a thread has still to do, which each of its events lessens; so every order has its run.

ghost use Rattle.laws_states.specs.EveryOrder.{EveryOrderHasRun};
ghost use Rattle.laws_states.specs.WorkLeft.{EventsLessenWork, EventsLessenAllWork, WorkIsBounded};

use crate::{events_keep_state, next_keeps_state, parts_keep_threads, start_has_state};

/// The next event of a live thread leaves less for it to do, by whatever word it finds.
pub fn events_lessen_work()
    ensures { EventsLessenWork }
{}

/// So an event of a live thread leaves less for all of them.
pub fn events_lessen_all_work()
    ensures { EventsLessenAllWork }
{
    events_lessen_work();
}

/// What a thread has to do is bounded by the limits of instructions and turns, its roots and its
/// frames.
pub fn work_is_bounded()
    ensures { WorkIsBounded }
{}

/// Every order stands for a list of events, at whose end nothing comes next.
pub fn every_order_has_run()
    ensures { EveryOrderHasRun }
{
    parts_keep_threads();
    start_has_state();
    events_keep_state();
    next_keeps_state();
    events_lessen_all_work();
}
