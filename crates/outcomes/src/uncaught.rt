//! Exceptions that nothing caught, in the states that a search has found.

ghost use Rattle.std.specs.Prelude.{◌≡◌, ◌<◌, ℕ, IfOk, IfSome, MatchOption, Some, is_some, length};
ghost use Rattle.std.specs.Prelude.{false, slice_get, true};
ghost use Rattle.std.specs.List.{list_any};
ghost use Rattle.machine_types.specs.PlainState.{Plain as State};
ghost use Rattle.plain_orders.specs.UncaughtRuns.{has_uncaught_end, is_by_uncaught};
ghost use Rattle.plain_search.specs.Searched.{IsSearched};
ghost use Rattle.outcomes.specs.Lists.{IsUncaught};

use crate::reached::{Reached, reached_at};
use checked_program::Checked;
use history_rule::Plain;
use jvm_types::End;
use plain_search::Found;
use plain_threads::Thread;
use std::alloc::{AllocError, Global};

/// Whether an exception that nothing caught ended a part.
fn is_by_uncaught(end: End) -> bool
    ensures { result ≡ is_by_uncaught end }
{
    matches!(end, End::Uncaught(_))
}

/// Whether one ended a part of a thread.
fn is_uncaught_in(x: &Thread) -> bool
    ensures { result ≡ list_any is_by_uncaught x.now.ended }
{
    x.ended().iter().any(|end| is_by_uncaught(*end))
}

/// Whether one ended a part of a thread of a state.
fn has_uncaught_end(q: &Plain) -> bool
    ensures { result ≡ has_uncaught_end q.now.state }
{
    q.threads().as_slice().iter().any(|x| is_uncaught_in(x))
}

/// The number of the first state where one ended a part.
fn first_uncaught(found: &Found) -> Option<usize>
    ensures { MatchOption result
        ((k : ℕ) (q : State) → slice_get found.now.states k ≡ Some q → has_uncaught_end q ≡ false)
        (λ k. (k < length found.now.states)
        × ((q : State) → slice_get found.now.states k ≡ Some q → has_uncaught_end q ≡ true)) }
{
    for k in 0..found.len() {
        if has_uncaught_end(found.at(k)) {
            return Some(k);
        }
    }
    None
}

/// A state where an exception that nothing caught ended a part, where there is one.
pub(crate) fn find_uncaught(
    alloc: Global,
    p: &Checked,
    found: &Found,
) -> Result<Option<Reached>, AllocError>
    requires program { p.now ≡ found.now.program }
    requires searched { IsSearched found.now }
    ensures uncaught { IfOk result (λ o. IfSome o (IsUncaught p.now)) }
    ensures all { IfOk result (λ o. (k : ℕ) (q : State) → slice_get found.now.states k ≡ Some q
        → has_uncaught_end q ≡ true → is_some o ≡ true) }
{
    match first_uncaught(found) {
        Some(k) => {
            let at = reached_at(alloc, p, found, k)?;
            Ok(Some(at))
        }
        None => Ok(None),
    }
}
