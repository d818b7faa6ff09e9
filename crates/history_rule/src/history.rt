//! Whole histories.

ghost use Rattle.std.specs.Prelude.{◌≡◌, ◌+◌, ◌≤◌, ℕ, length, take, Some};
ghost use Rattle.machine_types.specs.PlainSteps.{plain_run};
ghost use Rattle.history_rule.specs.declared.plain.TheConstants.{MOST_STEPS};
ghost use Rattle.history_rule.specs.Steps.{IsRunMade, IsPlayedOn};

use crate::plain::{Plain, plain_step};
use checked_program::Checked;
use machine_types::PlainStep;
use std::alloc::{AllocError, Global};

impl Plain {
    /// Makes steps in their order, up to the first that there is not. `Ok(true)`: all of them are
    /// made, so they are a history of the plain machine from here on. `Ok(false)`: they are none.
    /// In each case, and after an error, the state is that behind some of the steps, from the first
    /// on.
    pub fn run(
        &mut self,
        alloc: Global,
        p: &Checked,
        steps: &[PlainStep],
    ) -> Result<bool, AllocError>
        requires program { p.now ≡ self.old.program }
        requires few { self.old.steps + length steps.now ≤ MOST_STEPS }
        ensures run { IsRunMade (plain_run p.now.program self.old.state steps.now) self.new.state
            result }
        ensures reached { (n : ℕ) × IsPlayedOn self.old (take n steps.now) n self.new }
    {
        for step in steps {
            if !plain_step(alloc, self, p, step)? {
                return Ok(false);
            }
        }
        Ok(true)
    }
}
