//! The steps of monitors (JVMS 2.11.10; JLS 17.1, 17.2).

ghost use Rattle.std.specs.Prelude.{◌≡◌, ◌<◌, length, slice_get, Some, None, OnOk, OnErr};
ghost use Rattle.machine_types.specs.PlainState.{PlainThread, Run, held_by, holding_at, is_holder};
ghost use Rattle.machine_types.specs.PlainState.{with_status, with_thread};
ghost use Rattle.machine_types.specs.PlainSteps.{all_notified, plain_entered, exited, notified};
ghost use Rattle.machine_types.specs.PlainSteps.{retaken, waited};
ghost use Rattle.plain_frames.specs.Changes.{after_of};
ghost use Rattle.history_rule.specs.Small.{HasRoomForStep};
ghost use Rattle.history_rule.specs.Steps.{IsStep};

use crate::plain_state::PlainState;
use checked_program::Checked;
use plain_frames::{Then, after};
use plain_threads::Status;
use std::alloc::{AllocError, Global};

impl PlainState {
    /// Whether a thread holds a monitor.
    pub fn holds(&self, t: u8, m: u64) -> bool
        ensures { result ≡ is_holder t (holding_at self.now.holdings m) }
    {
        match self.holdings.at(m) {
            Some(h) => h.holder() == t,
            None => false,
        }
    }

    /// A thread holds a monitor at this depth, and runs.
    fn take(&mut self, t: u8, m: u64, depth: u64) -> Result<(), AllocError>
        requires { t < length self.old.threads }
        ensures ok { OnOk result ((x : PlainThread) → slice_get self.old.threads t ≡ Some x
            → self.new ≡ with_thread (held_by self.old m t depth) t (with_status x Run)) }
        ensures err { OnErr result (self.new ≡ self.old) }
    {
        self.holdings.put(t, m, depth)?;
        self.threads.set_status(t, Status::Run);
        Ok(())
    }

    /// A thread enters a monitor that is free, or that it holds.
    pub fn enter(&mut self, t: u8, m: u64) -> Result<bool, AllocError>
        requires thread { t < length self.old.threads }
        requires room { HasRoomForStep self.old }
        ensures { (x : PlainThread) → slice_get self.old.threads t ≡ Some x → IsStep
            (plain_entered self.old t m x (holding_at self.old.holdings m)) self.old self.new
            result }
    {
        let depth = match self.holdings.at(m) {
            None => 1,
            Some(h) if h.holder() == t => h.depth() + 1,
            Some(_) => return Ok(false),
        };
        self.take(t, m, depth)?;
        Ok(true)
    }

    /// A thread that was woken takes back a monitor that is free.
    pub fn retake(&mut self, t: u8, m: u64, depth: u64) -> Result<bool, AllocError>
        requires { t < length self.old.threads }
        ensures { (x : PlainThread) → slice_get self.old.threads t ≡ Some x → IsStep
            (retaken self.old t m depth x (holding_at self.old.holdings m)) self.old self.new
            result }
    {
        if self.holdings.at(m).is_some() {
            return Ok(false);
        }
        self.take(t, m, depth)?;
        Ok(true)
    }

    /// A thread leaves a monitor that it holds, and goes on.
    pub fn exit(
        &mut self,
        alloc: Global,
        p: &Checked,
        t: u8,
        m: u64,
        then: Then,
    ) -> Result<bool, AllocError>
        requires { t < length self.old.threads }
        ensures { (x : PlainThread) → slice_get self.old.threads t ≡ Some x → IsStep (exited
            p.now.program self.old t m (after_of then) x (holding_at self.old.holdings m))
            self.old self.new result }
    {
        let depth = match self.holdings.at(m) {
            Some(h) if h.holder() == t => h.depth(),
            _ => return Ok(false),
        };
        let onward = after(alloc, p, self.threads.at(t).frames(), then)?;
        match onward {
            Some(onward) => {
                self.threads.go_on(alloc, t, onward)?;
                self.holdings.leave(t, m, depth);
                Ok(true)
            }
            None => Ok(false),
        }
    }

    /// A thread gives up a monitor that it holds, and waits.
    pub fn wait(&mut self, t: u8, m: u64) -> Result<bool, AllocError>
        requires { t < length self.old.threads }
        ensures { (x : PlainThread) → slice_get self.old.threads t ≡ Some x → IsStep
            (waited self.old t m x (holding_at self.old.holdings m)) self.old self.new result }
    {
        let depth = match self.holdings.at(m) {
            Some(h) if h.holder() == t => h.depth(),
            _ => return Ok(false),
        };
        self.holdings.remove(m);
        self.threads.set_status(t, Status::Waiting(m, depth));
        Ok(true)
    }

    /// A thread notifies nobody, where nobody waits.
    fn notify_none(&mut self, t: u8, m: u64) -> Result<bool, AllocError>
        requires { t < length self.old.threads }
        ensures { (x : PlainThread) → slice_get self.old.threads t ≡ Some x
            → IsStep (notified self.old t m x None) self.old self.new result }
    {
        if self.threads.any_waits(m) {
            return Ok(false);
        }
        self.threads.set_status(t, Status::Run);
        Ok(true)
    }

    /// A thread notifies one that waits.
    fn notify_one(&mut self, t: u8, m: u64, u: u8) -> Result<bool, AllocError>
        requires { t < length self.old.threads }
        ensures { (x : PlainThread) → slice_get self.old.threads t ≡ Some x
            → IsStep (notified self.old t m x (Some u)) self.old self.new result }
    {
        match self.threads.get(u) {
            Some(x) => {
                if !x.waits_on(m) {
                    return Ok(false);
                }
            }
            None => return Ok(false),
        }
        self.threads.wake(u, m);
        self.threads.set_status(t, Status::Run);
        Ok(true)
    }

    /// A thread notifies one that waits, or nobody, where nobody waits.
    pub fn notify(&mut self, t: u8, m: u64, one: Option<u8>) -> Result<bool, AllocError>
        requires { t < length self.old.threads }
        ensures { (x : PlainThread) → slice_get self.old.threads t ≡ Some x
            → IsStep (notified self.old t m x one) self.old self.new result }
    {
        match one {
            Some(u) => self.notify_one(t, m, u),
            None => self.notify_none(t, m),
        }
    }

    /// A thread notifies each that waits.
    pub fn notify_all(&mut self, t: u8, m: u64)
        requires { t < length self.old.threads }
        ensures { (x : PlainThread) → slice_get self.old.threads t ≡ Some x
            → self.new ≡ all_notified self.old t m x }
    {
        self.threads.wake_all(m);
        self.threads.set_status(t, Status::Run);
    }
}
