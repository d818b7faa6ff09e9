//! What the runs of the plain machine come to: outcomes, each with an order of the running machine
//! or with steps of the plain one; which threads wait for ever; and the numbers that are printed.
//! Where all states were found, those of every run.
#![tactic(auto)]

ghost use Rattle.outcomes.specs.WholeLists.{EndsAreListed, PrintsAreListed, RestsAreListed};
ghost use Rattle.outcomes.specs.WholeLists.{UncaughtIsListed};

mod all_outcomes;
mod comparing;
mod fitting;
mod following;
mod leading;
mod listing;
mod ordering;
mod printing;
mod reached;
mod sameness;
mod shortening;
mod standing;
mod stopping;
mod uncaught;

pub use all_outcomes::{MOST_OUTCOME_STATES, Outcomes, find_outcomes, list_outcomes};
pub use comparing::comes_to;
pub use leading::order_to;
pub use listing::Listed;
pub use ordering::Ordered;
use plain_orders::{ends_are_covered, prints_are_covered, runs_are_covered, uncaught_is_covered};
pub use plain_search::{Unwatched, Watch};
pub use printing::Printing;
pub use reached::Reached;
pub use stopping::{Stop, Stopped, stopped_thread, stopped_threads};

/// Where lists of outcomes are whole, every run that is over, and of which no limit ended a part,
/// comes to one of the list; a run that stands where no step is left, at any time, stands at one of
/// the list; what a run has printed at any time is listed; and where its report tells, at any time,
/// of an exception that nothing caught, a state where one ended a part is listed.
pub fn whole_lists_are_all()
    ensures ends { EndsAreListed }
    ensures rests { RestsAreListed }
    ensures prints { PrintsAreListed }
    ensures uncaught { UncaughtIsListed }
{
    ends_are_covered();
    runs_are_covered();
    prints_are_covered();
    uncaught_is_covered();
}
