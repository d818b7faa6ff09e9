//! The end of such a list.

ghost use Rattle.laws_refinement.specs.ScheduleOver.{SchedulesEndOver};

use laws_threads::given_is_kept;

/// When each item of the list has happened, the run is over: no thread is live, and no part may
/// begin.
pub fn schedules_end_over()
    ensures { SchedulesEndOver }
{
    given_is_kept();
}
