//! The begin of roots (the machine's own; JVMS 5.5 for `<clinit>`).

ghost use Rattle.std.specs.Prelude.{◌≡◌, ◌<◌, length, slice_get, Some, None};
ghost use Rattle.std.specs.Option.{option_map};
ghost use Rattle.machine_types.specs.PlainState.{PlainThread, with_thread};
ghost use Rattle.machine_types.specs.PlainSteps.{plain_begun, plain_begins, may_do_done, step_at};
ghost use Rattle.machine_types.specs.declared.plain.Act.TheVariants as acts;
ghost use Rattle.plain_threads.specs.Statuses.{plain_status_of};
ghost use Rattle.history_rule.specs.Steps.{IsStep};

use crate::plain_state::PlainState;
use checked_program::Checked;
use jvm_types::{End, Stack};
use plain_frames::rooted;
use plain_threads::{Status, done_roots};
use std::alloc::{AllocError, Global};

/// Whether thread 0 may do `done`: of its parts only `init` has ended.
fn may_do_done(t: u8, ended: &[End]) -> bool
    ensures { result ≡ may_do_done t ended.now }
{
    match ended {
        [End::Returned] => t == 0,
        _ => false,
    }
}

impl PlainState {
    /// The first of some roots begins.
    fn begin_root(
        &mut self,
        alloc: Global,
        p: &Checked,
        t: u8,
        mut roots: Stack<u32>,
    ) -> Result<bool, AllocError>
        requires { t < length self.old.threads }
        ensures { (x : PlainThread) → slice_get self.old.threads t ≡ Some x → IsStep
            (option_map (with_thread self.old t) (plain_begun p.now.program t x roots)) self.old
            self.new result }
    {
        match roots.pop() {
            Some(number) => match p.program().methods.get(number as usize) {
                Some(m) => {
                    let entry = rooted(alloc, t, number, m)?;
                    self.threads.begin(alloc, t, entry, roots)?;
                    Ok(true)
                }
                None => Ok(false),
            },
            None => Ok(false),
        }
    }

    /// The next root of a part begins, where its part has not ended, or is `done`.
    fn begin_next(
        &mut self,
        alloc: Global,
        p: &Checked,
        t: u8,
        status: Status,
    ) -> Result<bool, AllocError>
        requires { t < length self.old.threads }
        ensures { (x : PlainThread) → slice_get self.old.threads t ≡ Some x → IsStep (option_map
            (with_thread self.old t)
            (plain_begins p.now.program t x (plain_status_of status))) self.old self.new
            result }
    {
        let roots = match status {
            Status::Ready => self.threads.at(t).roots().copy(alloc)?,
            Status::Ended(End::Returned) if may_do_done(t, self.threads.at(t).ended()) =>
                done_roots(alloc, p)?,
            _ => return Ok(false),
        };
        self.begin_root(alloc, p, t, roots)
    }

    /// The next root of a part that is due begins.
    pub fn begin(
        &mut self,
        alloc: Global,
        p: &Checked,
        t: u8,
        status: Status,
    ) -> Result<bool, AllocError>
        requires { t < length self.old.threads }
        ensures { (x : PlainThread) → slice_get self.old.threads t ≡ Some x → IsStep
            (step_at p.now.program self.old t x acts.Begin (plain_status_of status)) self.old
            self.new result }
    {
        if !self.threads.is_due(t, self.threads.at(t).ended()) {
            return Ok(false);
        }
        self.begin_next(alloc, p, t, status)
    }
}
