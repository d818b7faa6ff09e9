//! An order for a run of the plain machine.

ghost use Rattle.std.specs.Prelude.{IfOk, IfSome};
ghost use Rattle.machine_types.specs.Settings.{AreSettings};
ghost use Rattle.outcomes.specs.Comes.{LeadsTo};

use crate::following::follow;
use crate::ordering::Ordered;
use crate::shortening::shorter;
use crate::standing::tried;
use checked_program::Checked;
use history_rule::Plain;
use machine_types::{Config, PlainStep};
use std::alloc::{AllocError, Global};

/// An order that follows steps of the plain machine, where its run comes to what a state shows.
fn followed(
    alloc: Global,
    p: &Checked,
    cfg: &Config,
    steps: &[PlainStep],
    q: &Plain,
) -> Result<Option<Ordered>, AllocError>
    requires { AreSettings cfg.now }
    ensures { IfOk result
        (λ o. IfSome o (λ r. LeadsTo p.now cfg.now q.now.state r.order r.outcome)) }
{
    match follow(alloc, p, cfg, steps)? {
        Some(order) => tried(alloc, p, cfg, order, q),
        None => Ok(None),
    }
}

/// An order by which a run of these settings comes to what a state of the plain machine shows,
/// found by following steps that lead there, with fewer switches where some come to it too. `None`:
/// none was found, which does not say that there is none.
pub fn order_to(
    alloc: Global,
    p: &Checked,
    cfg: &Config,
    steps: &[PlainStep],
    q: &Plain,
) -> Result<Option<Ordered>, AllocError>
    requires { AreSettings cfg.now }
    ensures { IfOk result
        (λ o. IfSome o (λ r. LeadsTo p.now cfg.now q.now.state r.order r.outcome)) }
{
    match followed(alloc, p, cfg, steps, q)? {
        Some(found) => Ok(Some(shorter(alloc, p, cfg, q, found)?)),
        None => Ok(None),
    }
}
