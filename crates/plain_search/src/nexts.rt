//! The states that come next.

ghost use Rattle.std.specs.Prelude.{◌≡◌, ◌≤◌, ◌+◌, ◌^◌, ℕ, length, Some, None, IfOk, IfSome, OnOk};
ghost use Rattle.std.specs.List.{AllByRecursion};
ghost use Rattle.machine_types.specs.declared.plain.Act.{Act as Acts};
ghost use Rattle.machine_types.specs.declared.plain.Act.TheVariants as acts;
ghost use Rattle.plain_search.specs.Nexts.{HasNextBy, HasNexts, IsNextRow};
ghost use Rattle.plain_search.specs.Rows.{IsLonger};

use crate::acts::may_step;
use crate::row::Row;
use crate::settling::settle;
use checked_program::Checked;
use history_rule::{Plain, plain_step};
use machine_types::{Act, PlainStep};
use std::alloc::{AllocError, Global};

/// The machine again: the spare one, where there is one.
fn taken(alloc: Global, q: &Plain, spare: &mut Option<Plain>) -> Result<Plain, AllocError>
    requires { IfSome spare.old (λ z. z ≡ q.now) }
    ensures same { IfOk result (λ z. z ≡ q.now) }
    ensures none { spare.new ≡ None }
{
    match spare.take() {
        Some(plain) => Ok(plain),
        None => q.copy(alloc),
    }
}

/// Adds the state behind a step and the local steps of its thread, where there is such a step.
/// `spare` is the same machine as `q`, or none, and so it stays.
#[inline(never)]
fn add_made(
    alloc: Global,
    p: &Checked,
    q: &Plain,
    from: u32,
    spare: &mut Option<Plain>,
    rows: &mut Vec<Row>,
    step: PlainStep,
) -> Result<(), AllocError>
    requires program { p.now ≡ q.now.program }
    requires few { q.now.steps + 1001 ≤ 2 ^ 40 }
    requires same { IfSome spare.old (λ z. z ≡ q.now) }
    ensures spare { OnOk result (IfSome spare.new (λ z. z ≡ q.now)) }
    ensures there { OnOk result (HasNextBy q.now rows.new.items step) }
    ensures longer { OnOk result (IsLonger (IsNextRow q.now) rows.old.items rows.new.items) }
{
    let mut plain = taken(alloc, q, spare)?;
    if !plain_step(alloc, &mut plain, p, &step)? {
        *spare = Some(plain);
        return Ok(());
    }
    let locals = settle(alloc, &mut plain, p, step.thread)?;
    rows.push(Row {
        plain,
        from,
        step,
        locals,
    })?;
    Ok(())
}

/// The same; nothing is tried where what the thread is about says that there is no such step.
fn add_by(
    alloc: Global,
    p: &Checked,
    q: &Plain,
    from: u32,
    spare: &mut Option<Plain>,
    rows: &mut Vec<Row>,
    step: PlainStep,
) -> Result<(), AllocError>
    requires program { p.now ≡ q.now.program }
    requires few { q.now.steps + 1001 ≤ 2 ^ 40 }
    requires same { IfSome spare.old (λ z. z ≡ q.now) }
    ensures spare { OnOk result (IfSome spare.new (λ z. z ≡ q.now)) }
    ensures there { OnOk result (HasNextBy q.now rows.new.items step) }
    ensures longer { OnOk result (IsLonger (IsNextRow q.now) rows.old.items rows.new.items) }
{
    if may_step(q, step) {
        add_made(alloc, p, q, from, spare, rows, step)?;
    }
    Ok(())
}

/// Adds the states behind a step by which a thread is woken.
fn add_notifies(
    alloc: Global,
    p: &Checked,
    q: &Plain,
    from: u32,
    spare: &mut Option<Plain>,
    rows: &mut Vec<Row>,
    thread: u8,
) -> Result<(), AllocError>
    requires program { p.now ≡ q.now.program }
    requires few { q.now.steps + 1001 ≤ 2 ^ 40 }
    requires threads { length q.now.state.threads ≤ 256 }
    requires same { IfSome spare.old (λ z. z ≡ q.now) }
    ensures spare { OnOk result (IfSome spare.new (λ z. z ≡ q.now)) }
    ensures there { OnOk result ((u : ℕ) → HasNextBy q.now rows.new.items
        (record { thread = thread; act = acts.Notify (Some u) })) }
    ensures longer { OnOk result (IsLonger (IsNextRow q.now) rows.old.items rows.new.items) }
{
    for u in 0..q.threads().len() {
        let step = PlainStep {
            thread,
            act: Act::Notify(Some(u as u8)),
        };
        add_by(alloc, p, q, from, spare, rows, step)?;
    }
    Ok(())
}

/// Adds the states behind the steps of a thread.
fn add_of(
    alloc: Global,
    p: &Checked,
    q: &Plain,
    from: u32,
    spare: &mut Option<Plain>,
    rows: &mut Vec<Row>,
    thread: u8,
) -> Result<(), AllocError>
    requires program { p.now ≡ q.now.program }
    requires few { q.now.steps + 1001 ≤ 2 ^ 40 }
    requires threads { length q.now.state.threads ≤ 256 }
    requires same { IfSome spare.old (λ z. z ≡ q.now) }
    ensures spare { OnOk result (IfSome spare.new (λ z. z ≡ q.now)) }
    ensures there { OnOk result ((act : Acts) → HasNextBy q.now rows.new.items
        (record { thread = thread; act = act })) }
    ensures longer { OnOk result (IsLonger (IsNextRow q.now) rows.old.items rows.new.items) }
{
    add_by(
        alloc,
        p,
        q,
        from,
        spare,
        rows,
        PlainStep {
            thread,
            act: Act::Begin,
        },
    )?;
    add_by(
        alloc,
        p,
        q,
        from,
        spare,
        rows,
        PlainStep {
            thread,
            act: Act::Do,
        },
    )?;
    add_by(
        alloc,
        p,
        q,
        from,
        spare,
        rows,
        PlainStep {
            thread,
            act: Act::Enter,
        },
    )?;
    add_by(
        alloc,
        p,
        q,
        from,
        spare,
        rows,
        PlainStep {
            thread,
            act: Act::Exit,
        },
    )?;
    add_by(
        alloc,
        p,
        q,
        from,
        spare,
        rows,
        PlainStep {
            thread,
            act: Act::Wait,
        },
    )?;
    add_by(
        alloc,
        p,
        q,
        from,
        spare,
        rows,
        PlainStep {
            thread,
            act: Act::Notify(None),
        },
    )?;
    add_by(
        alloc,
        p,
        q,
        from,
        spare,
        rows,
        PlainStep {
            thread,
            act: Act::NotifyAll,
        },
    )?;
    add_by(
        alloc,
        p,
        q,
        from,
        spare,
        rows,
        PlainStep {
            thread,
            act: Act::Retake,
        },
    )?;
    add_notifies(alloc, p, q, from, spare, rows, thread)?;
    Ok(())
}

/// The states that come next behind a row, each behind local steps of the thread that made the
/// step.
pub(crate) fn next_rows(
    alloc: Global,
    p: &Checked,
    q: &Plain,
    from: u32,
) -> Result<Vec<Row>, AllocError>
    requires program { p.now ≡ q.now.program }
    requires few { q.now.steps + 1001 ≤ 2 ^ 40 }
    requires threads { length q.now.state.threads ≤ 256 }
    ensures there { IfOk result (λ rows. HasNexts q.now rows.items) }
    ensures nexts { IfOk result (λ rows. AllByRecursion (IsNextRow q.now) rows.items) }
{
    let mut rows = Vec::new(alloc);
    let mut spare: Option<Plain> = None;
    for t in 0..q.threads().len() {
        add_of(alloc, p, q, from, &mut spare, &mut rows, t as u8)?;
    }
    Ok(rows)
}
