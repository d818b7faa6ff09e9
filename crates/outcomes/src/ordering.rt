//! Orders whose runs come to what a state of the plain machine shows.

ghost use Rattle.std.specs.Prelude.{◌≡◌, IfOk, IfSome};
ghost use Rattle.machine_types.specs.Settings.{AreSettings};
ghost use Rattle.outcomes.specs.Comes.{LeadsTo};

use crate::comparing::{comes_to, has_no_other_limit};
use checked_program::Checked;
use history_rule::Plain;
use jvm_types::{Bytes, Outcome};
use machine_types::Config;
use replay_runner::replay;
use std::alloc::{AllocError, Global};

/// An order, each number of which is that of the worker that makes the next event, and what its
/// run comes to.
#[derive(Drop)]
pub struct Ordered {
    pub order: Bytes,
    pub outcome: Outcome,
}

/// The outcome of an order, where it is what a state of the plain machine shows.
pub(crate) fn replayed(
    alloc: Global,
    p: &Checked,
    cfg: &Config,
    order: Bytes,
    q: &Plain,
) -> Result<Option<Ordered>, AllocError>
    requires { AreSettings cfg.now }
    ensures { IfOk result
        (λ o. IfSome o (λ r. LeadsTo p.now cfg.now q.now.state r.order r.outcome)) }
{
    let outcome = replay(alloc, p, cfg, &order)?;
    if comes_to(alloc, p, q, &outcome)? && has_no_other_limit(&outcome) {
        Ok(Some(Ordered { order, outcome }))
    } else {
        Ok(None)
    }
}
