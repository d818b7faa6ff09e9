//! Orders by which threads that wait for ever stop where those of a plain state do. No clause says
//! so: an order that passes this is replayed, and its prints and ends are compared.

ghost use Rattle.std.specs.Prelude.{◌≡◌, IfOk, IfSome};
ghost use Rattle.machine_types.specs.Settings.{AreSettings};
ghost use Rattle.outcomes.specs.Comes.{LeadsTo};

use crate::following::is_beside;
use crate::ordering::{Ordered, replayed};
use crate::stopping::stopped_thread;
use checked_program::Checked;
use history_rule::Plain;
use jvm_types::Bytes;
use machine_types::Config;
use replay_runner::Machine;
use std::alloc::{AllocError, Global};

/// The numbers of workers.
const WORKERS: [u8; 8] = [1, 2, 3, 4, 5, 6, 7, 8];

/// Whether a worker of a plain state has begun and not ended.
fn is_stuck(q: &Plain) -> bool {
    WORKERS.iter().any(|t| stopped_thread(q, *t).is_some())
}

/// The machine behind the events of an order.
fn behind(alloc: Global, p: &Checked, cfg: &Config, order: &[u8]) -> Result<Machine, AllocError>
    requires { AreSettings cfg.now }
    ensures { IfOk result (λ m. m.program ≡ p.now) }
{
    let mut machine = Machine::start(alloc, p, cfg)?;
    machine.run_alone(p, 0);
    machine.next(p);
    for t in order {
        machine.event(p, *t);
    }
    Ok(machine)
}

/// Whether a worker stands where that of a plain state stops; one that has not stopped there has
/// no event left.
fn stops_alike(machine: &Machine, q: &Plain, t: u8) -> bool {
    match stopped_thread(q, t) {
        Some(_) => is_beside(machine, q, t),
        None => !machine.lives(t),
    }
}

/// Whether an order leads to where the threads of a plain state stop.
fn leads_beside(
    alloc: Global,
    p: &Checked,
    cfg: &Config,
    order: &[u8],
    q: &Plain,
) -> Result<bool, AllocError>
    requires { AreSettings cfg.now }
{
    let machine = behind(alloc, p, cfg, order)?;
    Ok(WORKERS.iter().all(|t| stops_alike(&machine, q, *t)))
}

/// The outcome of an order that is tried, where it is what a state of the plain machine shows, and
/// threads that wait for ever in the one stop there in the other.
pub(crate) fn tried(
    alloc: Global,
    p: &Checked,
    cfg: &Config,
    order: Bytes,
    q: &Plain,
) -> Result<Option<Ordered>, AllocError>
    requires { AreSettings cfg.now }
    ensures { IfOk result
        (λ o. IfSome o (λ r. LeadsTo p.now cfg.now q.now.state r.order r.outcome)) }
{
    if is_stuck(q) && !leads_beside(alloc, p, cfg, order.as_slice(), q)? {
        return Ok(None);
    }
    replayed(alloc, p, cfg, order, q)
}
