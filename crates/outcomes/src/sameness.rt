//! Whether two states of the plain machine show the same.

ghost use Rattle.std.specs.Prelude.{◌≡◌, ◌≤◌, ℕ, IfOk, length, true};
ghost use Rattle.machine_types.specs.PlainSteps.{first_end, plain_done_end};
ghost use Rattle.outcomes.specs.Lists.{ShowTheSame};
ghost use Rattle.outcomes.specs.Stops.{stopped_threads as the_stopped};

use crate::stopping::{Stopped, stopped_threads};
use checked_program::Checked;
use history_rule::Plain;
use jvm_types::End;
use std::alloc::{AllocError, Global};

/// Whether a plain machine has no more threads than bytes can count.
fn has_few_threads(q: &Plain) -> bool
    ensures { result ≡ true → length q.now.state.threads ≤ 256 }
{
    q.threads().len() <= 256
}

/// `true`: it is the same end, or neither has ended.
fn is_same_end(a: Option<End>, b: Option<End>) -> bool
    ensures { result ≡ true → a ≡ b }
{
    a == b
}

/// `true`: the first part of each thread ended in the same way, or has not ended.
fn have_same_ends(q: &Plain, z: &Plain) -> bool
    requires { length q.now.state.threads ≤ 256 }
    ensures { result ≡ true → (t : ℕ) → first_end q.now.state t ≡ first_end z.now.state t }
{
    let many = q.threads().len();
    if many != z.threads().len() {
        return false;
    }
    for t in 0..many {
        if !is_same_end(q.end_at(0, t as u8), z.end_at(0, t as u8)) {
            return false;
        }
    }
    true
}

/// `true`: the part `done` ended in the same way, or has not ended.
fn have_same_done(alloc: Global, p: &Checked, q: &Plain, z: &Plain) -> Result<bool, AllocError>
    ensures { IfOk result (λ b. b ≡ true
        → plain_done_end p.now.program q.now.state ≡ plain_done_end p.now.program z.now.state) }
{
    let one = q.done_end(alloc, p)?;
    let other = z.done_end(alloc, p)?;
    Ok(is_same_end(one, other))
}

/// `true`: it is the same thread, at the same place, kept by the same.
fn is_same_stop(a: &Stopped, b: &Stopped) -> bool
    ensures { result ≡ true → a.now ≡ b.now }
{
    a == b
}

/// `true`: the others are the same threads, in the same order.
fn are_same_stops(a: &[Stopped], b: &[Stopped]) -> bool
    ensures { result ≡ true → a.now ≡ b.now }
{
    if a.len() != b.len() {
        return false;
    }
    for i in 0..a.len() {
        if !is_same_stop(&a[i], &b[i]) {
            return false;
        }
    }
    true
}

/// `true`: the threads that have begun and not ended are the same, at the same places, kept by the
/// same monitors.
fn have_same_stops(alloc: Global, q: &Plain, z: &Plain) -> Result<bool, AllocError>
    requires one { length q.now.state.threads ≤ 256 }
    requires other { length z.now.state.threads ≤ 256 }
    ensures { IfOk result (λ b. b ≡ true → the_stopped q.now.state ≡ the_stopped z.now.state) }
{
    let one = stopped_threads(alloc, q)?;
    let other = stopped_threads(alloc, z)?;
    Ok(are_same_stops(one.as_slice(), other.as_slice()))
}

/// `true`: two states show the same.
pub(crate) fn show_the_same(
    alloc: Global,
    p: &Checked,
    q: &Plain,
    z: &Plain,
) -> Result<bool, AllocError>
    ensures { IfOk result (λ b. b ≡ true → ShowTheSame p.now.program q.now.state z.now.state) }
{
    if !q.has_same_prints(z) || !has_few_threads(q) || !has_few_threads(z) {
        return Ok(false);
    }
    if !have_same_ends(q, z) || !have_same_done(alloc, p, q, z)? {
        return Ok(false);
    }
    have_same_stops(alloc, q, z)
}
