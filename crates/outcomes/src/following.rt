//! A run of the plain machine, followed by the running one. No clause says how far it is followed:
//! the order that is found is replayed.

ghost use Rattle.std.specs.Prelude.{◌≡◌, ◌<◌, ◌^◌};
ghost use Rattle.machine_types.specs.Settings.{AreSettings};

use crate::fitting::fits;
use checked_program::Checked;
use history_rule::{MOST_STEPS, Plain, plain_start, plain_step, steps_are_stated};
use jvm_types::Bytes;
use machine_types::{Config, PlainStep};
use replay_runner::Machine;
use std::alloc::{AllocError, Global};

/// The most events of a thread for one step of the plain machine.
const MOST_EVENTS: u8 = 40;

/// The most events of an order.
const MOST_DIGITS: usize = 100_000;

/// Whether a thread of the running machine stands where that of the plain machine does.
pub(crate) fn is_beside(machine: &Machine, q: &Plain, t: u8) -> bool {
    match machine.thread(t) {
        Some(s) => match q.threads().get(t) {
            Some(x) => fits(s, x),
            None => false,
        },
        None => false,
    }
}

/// Makes events of a worker until it stands where that of the plain machine does. `false`: it does
/// not come to stand there.
fn catch_up(
    machine: &mut Machine,
    p: &Checked,
    q: &Plain,
    t: u8,
    order: &mut Bytes,
) -> Result<bool, AllocError>
    requires { p.now ≡ machine.old.program }
    ensures { machine.new.program ≡ machine.old.program }
{
    for _ in 0..MOST_EVENTS {
        if is_beside(machine, q, t) {
            return Ok(true);
        }
        if !machine.event(p, t) {
            return Ok(false);
        }
        order.push(t)?;
    }
    Ok(is_beside(machine, q, t))
}

/// Makes a step of the plain machine, where there is room for one more.
fn step_on(alloc: Global, q: &mut Plain, p: &Checked, step: &PlainStep) -> Result<bool, AllocError>
    requires { p.now ≡ q.old.program }
    ensures { q.new.program ≡ q.old.program }
{
    steps_are_stated();
    if q.steps() < MOST_STEPS {
        plain_step(alloc, q, p, step)
    } else {
        Ok(false)
    }
}

/// Follows one step of the plain machine: `false` where it is not followed. The steps of thread 0
/// come by themselves.
fn follow_step(
    alloc: Global,
    machine: &mut Machine,
    p: &Checked,
    q: &mut Plain,
    step: &PlainStep,
    order: &mut Bytes,
) -> Result<bool, AllocError>
    requires machine { p.now ≡ machine.old.program }
    requires plain { p.now ≡ q.old.program }
    ensures machine { machine.new.program ≡ machine.old.program }
    ensures plain { q.new.program ≡ q.old.program }
{
    if !step_on(alloc, q, p, step)? {
        return Ok(false);
    }
    if step.thread == 0 {
        return Ok(true);
    }
    let caught = catch_up(machine, p, q, step.thread, order)?;
    Ok(caught && order.len() <= MOST_DIGITS)
}

/// The events of the workers by which the running machine follows a run of the plain one, or `None`
/// where it does not.
pub(crate) fn follow(
    alloc: Global,
    p: &Checked,
    cfg: &Config,
    steps: &[PlainStep],
) -> Result<Option<Bytes>, AllocError>
    requires { AreSettings cfg.now }
{
    let mut machine = Machine::start(alloc, p, cfg)?;
    let mut q = plain_start(alloc, p)?;
    let mut order = Bytes::new(alloc);
    machine.run_alone(p, 0);
    machine.next(p);
    for step in steps {
        if !follow_step(alloc, &mut machine, p, &mut q, step, &mut order)? {
            return Ok(None);
        }
    }
    Ok(Some(order))
}
