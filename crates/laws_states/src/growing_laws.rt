//! How runs grow, and what stays of their states.

ghost use Rattle.laws_states.specs.GrowingRuns.{OneMoreHappens, RunsKeepSizes, ThreadsStayOfRuns};

/// A list of happenings with one more behind it leads to what this one makes of the state that the
/// list leads to.
pub fn one_more_happens()
    ensures { OneMoreHappens }
{}

/// Every state of a run has as many words as that of the start, and a thread for each worker and
/// one more.
pub fn runs_keep_sizes()
    ensures { RunsKeepSizes }
{}

/// A thread of a state that a run reaches is, behind its next event, again one of a state that a
/// run reaches.
pub fn threads_stay_of_runs()
    ensures { ThreadsStayOfRuns }
{}
