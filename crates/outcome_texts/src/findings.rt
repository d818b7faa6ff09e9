//! What no run is to do, and where it was found.

ghost use Rattle.std.specs.Prelude.{◌≡◌, ◌<◌, ◌||◌, IfOk, IfSome, None, is_some, length};
ghost use Rattle.std.specs.Prelude.{option_map};
ghost use Rattle.std.specs.List.{list_any, position_from};
ghost use Rattle.std.specs.Ordering.{int_eq};
ghost use Rattle.machine_types.specs.PlainSteps.{first_end};
ghost use Rattle.outcome_texts.specs.Findings.{finding as the_finding, found_among, finding_in};
ghost use Rattle.outcome_texts.specs.Findings.{has_uncaught, is_found as is_it_found};
ghost use Rattle.outcome_texts.specs.Findings.{is_printed as is_it_printed, shows as it_shows};
ghost use Rattle.outcome_texts.specs.Findings.{uncaught_if as the_uncaught};
ghost use Rattle.outcome_texts.specs.OutcomeFacts.{all_threads};

use crate::ends::THREADS;
use crate::stops::is_stuck;
use checked_program::Checked;
use history_rule::{Plain, Printed};
use jvm_types::End;
use outcomes::{Listed, Outcomes, Printing};
use std::alloc::{AllocError, Global};

/// What no run is to do.
#[derive(Clone, Copy, Debug, PartialEq, Eq)]
pub enum Forbidden {
    /// It prints the number.
    Print(i32),
    /// All its threads that have not ended wait for ever.
    Stuck,
    /// An exception that nothing catches ends a part of it.
    Uncaught,
}

/// Where it was found.
#[derive(Clone, Copy, Debug, PartialEq, Eq)]
pub enum Finding {
    /// In the outcome of that number, of which the first is 1.
    InOutcome(u64),
    /// In no outcome, but among the printed numbers, at that place.
    InNone(u64),
    /// In no outcome, but an exception that nothing caught ended a part before.
    UncaughtInNone,
    Nowhere,
}

fn has_printed(prints: &[Printed], value: i32) -> bool
    ensures { result ≡ list_any (λ x. int_eq x.value value) prints.now }
{
    prints.iter().any(|x| x.value() == value)
}

fn is_uncaught(end: Option<End>) -> bool
    ensures { result ≡ has_uncaught end }
{
    matches!(end, Some(End::Uncaught(_)))
}

fn has_uncaught_thread(q: &Plain) -> bool
    ensures { result ≡ list_any (λ t. has_uncaught (first_end q.now.state t)) all_threads }
{
    THREADS.iter().any(|t| is_uncaught(q.end_at(0, *t)))
}

/// Whether a state shows what no run is to do.
fn shows(alloc: Global, p: &Checked, what: Forbidden, q: &Plain) -> Result<bool, AllocError>
    ensures { IfOk result (λ b. b ≡ it_shows p.now.program what q.now.state) }
{
    match what {
        Forbidden::Print(value) => Ok(has_printed(q.prints(), value)),
        Forbidden::Stuck => Ok(is_stuck(q)),
        Forbidden::Uncaught => {
            let done = q.done_end(alloc, p)?;
            Ok(has_uncaught_thread(q) || is_uncaught(done))
        }
    }
}

/// The number of the first outcome that shows it.
fn first_outcome(
    alloc: Global,
    p: &Checked,
    listed: &[Listed],
    what: Forbidden,
) -> Result<Option<u64>, AllocError>
    ensures { IfOk result (λ number. number
        ≡ position_from (λ x. it_shows p.now.program what x.at.plain.state) 1 listed.now) }
{
    for (i, x) in listed.iter().enumerate() {
        if shows(alloc, p, what, &x.at.plain)? {
            return Ok(Some(i as u64 + 1));
        }
    }
    Ok(None)
}

fn is_printed(what: Forbidden, x: &Printing) -> bool
    ensures { result ≡ is_it_printed what x.now }
{
    match what {
        Forbidden::Print(value) => x.value == value,
        Forbidden::Stuck | Forbidden::Uncaught => false,
    }
}

/// The place of the first printed number that is it.
fn first_printed(printed: &[Printing], what: Forbidden) -> Finding
    ensures { result ≡ found_among (position_from (is_it_printed what) 0 printed.now) }
{
    for (i, x) in printed.iter().enumerate() {
        if is_printed(what, x) {
            return Finding::InNone(i as u64);
        }
    }
    Finding::Nowhere
}

fn uncaught_if(is_there: bool) -> Finding
    ensures { result ≡ the_uncaught is_there }
{
    match is_there {
        true => Finding::UncaughtInNone,
        false => Finding::Nowhere,
    }
}

/// Where it was found that no outcome shows.
fn found_in_none(o: &Outcomes, what: Forbidden) -> Finding
    ensures { result ≡ finding_in None o.now what }
{
    match what {
        Forbidden::Uncaught => uncaught_if(o.uncaught.is_some()),
        Forbidden::Print(_) | Forbidden::Stuck => first_printed(o.printed.as_slice(), what),
    }
}

/// Where it was found: in the first outcome that shows it, else in none.
pub(crate) fn find_forbidden(
    alloc: Global,
    p: &Checked,
    o: &Outcomes,
    what: Forbidden,
) -> Result<Finding, AllocError>
    ensures { IfOk result (λ f. f ≡ the_finding p.now.program o.now what) }
{
    match first_outcome(alloc, p, o.listed.as_slice(), what)? {
        Some(number) => Ok(Finding::InOutcome(number)),
        None => Ok(found_in_none(o, what)),
    }
}

/// Whether it was found.
pub(crate) fn is_found(f: Finding) -> bool
    ensures { result ≡ is_it_found f }
{
    match f {
        Finding::InOutcome(_) | Finding::InNone(_) | Finding::UncaughtInNone => true,
        Finding::Nowhere => false,
    }
}
