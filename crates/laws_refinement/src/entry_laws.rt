//! How a thread comes to an entry, where attempts begin, how many fail at one entry, how they end,
//! and what they access.

ghost use Rattle.laws_refinement.specs.EntryLaws.{AttemptsEnd, AttemptsOnlyLook, AttemptsStay};
ghost use Rattle.laws_refinement.specs.EntryLaws.{BegunAreDue, DueBegin, FailuresPutBack, FewFail};
ghost use Rattle.laws_refinement.specs.EntryLaws.{InstructionsEnter, OnlyFailuresCount};
ghost use Rattle.laws_refinement.specs.EntryLaws.{ThreadsKeepCount};

use laws_states::{parts_keep_threads, runs_have_state};
use laws_threads::{elements_inside, inside_may_do};

/// The number of tries that a thread keeps at an entry, and in an attempt, is what its events tell.
pub fn threads_keep_count()
    ensures { ThreadsKeepCount }
{
    inside_may_do();
    elements_inside();
    runs_have_state();
    parts_keep_threads();
}

/// At one entry of a section at most two attempts fail.
pub fn few_fail()
    ensures { FewFail }
{
    threads_keep_count();
}

/// An instruction that comes to a monitor leaves its thread about to enter it, with nothing tried
/// there, unless an attempt fails by it.
pub fn instructions_enter()
    ensures { InstructionsEnter }
{}

/// A thread in no attempt that is about to enter a monitor (phase `Enter`, before it goes to the
/// lock) begins one where attempts are turned on, it is at the begin of a marked section and does
/// not hold the monitor, fewer than two have failed at this entry, and the lock word is found free
/// with a count below the last one.
pub fn due_begin()
    ensures { DueBegin }
{
    runs_have_state();
    parts_keep_threads();
    threads_keep_count();
}

/// It begins nowhere else, and always by a load of the lock word.
pub fn begun_are_due()
    ensures { BegunAreDue }
{
    runs_have_state();
    parts_keep_threads();
    threads_keep_count();
}

/// An attempt that is open stays the same one until it ends, but for how often its monitor was
/// entered inside.
pub fn attempts_stay()
    ensures { AttemptsStay }
{
    inside_may_do();
    elements_inside();
    runs_have_state();
    parts_keep_threads();
}

/// An attempt is open until it fails or its section is done; where that is done, the thread is at
/// no entry.
pub fn attempts_end()
    ensures { AttemptsEnd }
{
    inside_may_do();
    elements_inside();
    runs_have_state();
    parts_keep_threads();
}

/// An attempt that fails leaves the thread at the entry again, with the frames above the one that
/// entered dropped and that one as it was, what it held and all words as they are, and one failure
/// more counted.
pub fn failures_put_back()
    ensures { FailuresPutBack }
{
    inside_may_do();
    elements_inside();
    runs_have_state();
    parts_keep_threads();
}

/// Nothing but a failure is counted as one.
pub fn only_failures_count()
    ensures { OnlyFailuresCount }
{
    inside_may_do();
    elements_inside();
    runs_have_state();
    parts_keep_threads();
}

/// Inside an attempt every access is a load, or, where a limit has ended the thread, the load by
/// which it rests.
pub fn attempts_only_look()
    ensures { AttemptsOnlyLook }
{
    inside_may_do();
    elements_inside();
    runs_have_state();
    parts_keep_threads();
}
