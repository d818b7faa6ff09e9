//! What a recorded order is good for.

ghost use Rattle.record_run.specs.Recordings.{RecordedOrdersReplay};

use machine_types::one_schedule;

/// A replay by a recorded order comes to the outcome that was recorded with it.
pub fn recorded_orders_replay()
    ensures { RecordedOrdersReplay }
{
    one_schedule();
}
