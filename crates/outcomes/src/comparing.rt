//! Whether a run comes to what a state of the plain machine shows.

ghost use Rattle.std.specs.Prelude.{◌≡◌, ◌<◌, ℕ, Contains, IfOk, Some, length, slice_get, sum_by};
ghost use Rattle.std.specs.Prelude.{false, true};
ghost use Rattle.machine_types.specs.Faithful.{EndFits, EndsFit, PrintsFit};
ghost use Rattle.machine_types.specs.PlainState.{Printed as PlainPrint};
ghost use Rattle.machine_types.specs.PlainSteps.{first_end};
ghost use Rattle.jvm_types.specs.declared.outcome.ThreadReport.{ThreadReport as Report};
ghost use Rattle.outcomes.specs.Comes.{ComesTo, HasNoOtherLimit, IsReported, is_cut_off};

use checked_program::Checked;
use history_rule::{Plain, Printed};
use jvm_types::{End, Outcome, Print, ThreadReport};
use std::alloc::{AllocError, Global};

/// `true`: the print is among these.
fn has_print(prints: &[Print], ticket: u64, value: i32) -> bool
    ensures { result ≡ true → Contains prints.now (record { ticket = ticket; value = value }) }
{
    for print in prints {
        if print.ticket == ticket && print.value == value {
            return true;
        }
    }
    false
}

/// `true`: the report of its thread has the print at a place.
fn is_reported(o: &Outcome, i: usize, x: &Printed) -> bool
    ensures { result ≡ true → IsReported o.now i x.now }
{
    match o.threads.get(x.thread() as usize) {
        Some(r) => has_print(r.prints.as_slice(), i as u64, x.value()),
        None => false,
    }
}

/// `true`: each print is in the report of its thread.
fn are_reported(o: &Outcome, prints: &[Printed]) -> bool
    ensures { result ≡ true
        → (i : ℕ) (x : PlainPrint) → slice_get prints.now i ≡ Some x → IsReported o.now i x }
{
    for i in 0..prints.len() {
        if !is_reported(o, i, &prints[i]) {
            return false;
        }
    }
    true
}

/// `true`: the threads have printed so many numbers.
fn have_printed(threads: &[ThreadReport], count: usize) -> bool
    ensures { result ≡ true → sum_by (λ r. length r.prints) threads.now ≡ count }
{
    let mut left = count;
    for r in threads {
        let many = r.prints.len();
        if left < many {
            return false;
        }
        left -= many;
    }
    left == 0
}

/// `true`: a run has printed what the plain machine has.
fn prints_fit(o: &Outcome, q: &Plain) -> bool
    ensures { result ≡ true → PrintsFit o.now q.now.state }
{
    have_printed(o.threads.as_slice(), q.prints().len()) && are_reported(o, q.prints())
}

/// `true`: it is the same class.
fn is_same_end(a: End, b: Option<End>) -> bool
    ensures { result ≡ true → b ≡ Some a }
{
    b == Some(a)
}

/// `true`: a part of a run ended as one of the plain machine did, or a limit ended it and the other
/// has not ended.
fn end_fits(reported: End, end: Option<End>) -> bool
    ensures { result ≡ true → EndFits reported end }
{
    match reported {
        End::Returned | End::Uncaught(_) => is_same_end(reported, end),
        End::Steps | End::Turns | End::Records | End::Prints | End::NotRun => end.is_none(),
    }
}

/// `true`: the first part of a thread ended as that of the plain machine.
fn thread_fits(threads: &[ThreadReport], q: &Plain, t: usize) -> bool
    requires { t < 256 }
    ensures { result ≡ true → (r : Report) → slice_get threads.now t ≡ Some r
        → EndFits r.end (first_end q.now.state t) }
{
    match threads.get(t) {
        Some(r) => end_fits(r.end, q.end_at(0, t as u8)),
        None => true,
    }
}

/// `true`: the first part of each thread ended as that of the plain machine.
fn threads_fit(threads: &[ThreadReport], q: &Plain) -> bool
    ensures { result ≡ true → (t : ℕ) (r : Report) → slice_get threads.now t ≡ Some r
        → EndFits r.end (first_end q.now.state t) }
{
    if threads.len() > 256 {
        return false;
    }
    for t in 0..threads.len() {
        if !thread_fits(threads, q, t) {
            return false;
        }
    }
    true
}

/// `true`: each part of a run ended as that of the plain machine.
fn ends_fit(alloc: Global, p: &Checked, o: &Outcome, q: &Plain) -> Result<bool, AllocError>
    ensures { IfOk result (λ b. b ≡ true → EndsFit p.now.program o.now q.now.state) }
{
    let done = q.done_end(alloc, p)?;
    Ok(end_fits(o.done, done) && threads_fit(o.threads.as_slice(), q))
}

/// `true`: a run comes to what a state of the plain machine shows: what was printed, in order, and
/// how each part ended.
pub fn comes_to(alloc: Global, p: &Checked, q: &Plain, o: &Outcome) -> Result<bool, AllocError>
    ensures { IfOk result (λ b. b ≡ true → ComesTo p.now.program q.now.state o.now) }
{
    let ends = ends_fit(alloc, p, o, q)?;
    Ok(ends && prints_fit(o, q))
}

/// Whether a limit ended a part that is not that of failed turns.
fn is_cut_off(end: End) -> bool
    ensures { result ≡ is_cut_off end }
{
    matches!(end, End::Steps | End::Records | End::Prints)
}

/// `true`: no limit but that of failed turns ended a part of a run.
pub(crate) fn has_no_other_limit(o: &Outcome) -> bool
    ensures { result ≡ true → HasNoOtherLimit o.now }
{
    for r in o.threads.as_slice() {
        if is_cut_off(r.end) {
            return false;
        }
    }
    !is_cut_off(o.done)
}
