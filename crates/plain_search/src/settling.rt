//! Local steps, made as soon as they can be.

ghost use Rattle.std.specs.Prelude.{◌≡◌, ◌≤◌, ◌+◌, ◌^◌, true, slice_get, Some, OnOk};
ghost use Rattle.machine_types.specs.declared.plain.Act.TheVariants as acts;
ghost use Rattle.plain_orders.specs.LocalSteps.{is_local};
ghost use Rattle.plain_search.specs.Alone.{IsSettled};

use crate::local::is_local;
use checked_program::Checked;
use history_rule::{Plain, plain_step};
use machine_types::{Act, PlainStep};
use std::alloc::{AllocError, Global};

/// Whether the next step of a thread is a local one, and no jump back.
fn is_local_at(q: &Plain, p: &Checked, t: u8) -> bool
    ensures { result ≡ true → is_local p.now.program q.now.state
        (record { thread = t; act = acts.Do }) ≡ true }
{
    match q.threads().get(t) {
        Some(x) => is_local(p, x),
        None => false,
    }
}

/// Makes local steps of a thread, 1,000 at most, and answers how many.
pub(crate) fn settle(alloc: Global, q: &mut Plain, p: &Checked, t: u8) -> Result<u32, AllocError>
    requires program { p.now ≡ q.old.program }
    requires few { q.old.steps + 1000 ≤ 2 ^ 40 }
    ensures { OnOk result (IsSettled 1000 q.old q.new) }
{
    let step = PlainStep {
        thread: t,
        act: Act::Do,
    };
    for n in 0..1000u32 {
        if !is_local_at(q, p, t) {
            return Ok(n);
        }
        let made = plain_step(alloc, q, p, &step)?;
        if !made {
            return Ok(n);
        }
    }
    Ok(1000)
}
