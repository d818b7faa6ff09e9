//! One step.

ghost use Rattle.std.specs.Prelude.{◌≡◌, ◌<◌, length, slice_get, Some};
ghost use Rattle.jvm_types.specs.declared.program.Program.{Program};
ghost use Rattle.machine_types.specs.PlainState.{PlainThread};
ghost use Rattle.machine_types.specs.PlainSteps.{plain_step, step_at};
ghost use Rattle.machine_types.specs.declared.plain.Act.TheVariants as acts;
ghost use Rattle.plain_threads.specs.Statuses.{plain_status_of};
ghost use Rattle.history_rule.specs.Small.{HasRoomForStep};
ghost use Rattle.history_rule.specs.Steps.{IsStep};

use crate::plain_state::PlainState;
use checked_program::Checked;
use machine_types::{Act, PlainStep};
use plain_threads::Status;
use std::alloc::{AllocError, Global};

impl PlainState {
    /// A thread that is to enter a monitor does so.
    fn enter_step(&mut self, t: u8, status: Status) -> Result<bool, AllocError>
        requires thread { t < length self.old.threads }
        requires room { HasRoomForStep self.old }
        ensures { (p : Program) (x : PlainThread) → slice_get self.old.threads t ≡ Some x → IsStep
            (step_at p self.old t x acts.Enter (plain_status_of status)) self.old self.new
            result }
    {
        match status {
            Status::Enter(m) => self.enter(t, m),
            _ => Ok(false),
        }
    }

    /// A thread that is to leave a monitor does so.
    fn exit_step(
        &mut self,
        alloc: Global,
        p: &Checked,
        t: u8,
        status: Status,
    ) -> Result<bool, AllocError>
        requires { t < length self.old.threads }
        ensures { (x : PlainThread) → slice_get self.old.threads t ≡ Some x → IsStep
            (step_at p.now.program self.old t x acts.Exit (plain_status_of status)) self.old
            self.new result }
    {
        match status {
            Status::Leave(m, after) => self.exit(alloc, p, t, m, after),
            _ => Ok(false),
        }
    }

    /// A thread that is to wait does so.
    fn wait_step(&mut self, t: u8, status: Status) -> Result<bool, AllocError>
        requires { t < length self.old.threads }
        ensures { (p : Program) (x : PlainThread) → slice_get self.old.threads t ≡ Some x → IsStep
            (step_at p self.old t x acts.Wait (plain_status_of status)) self.old self.new
            result }
    {
        match status {
            Status::Wait(m) => self.wait(t, m),
            _ => Ok(false),
        }
    }

    /// A thread that is to notify does so.
    fn notify_step(&mut self, t: u8, one: Option<u8>, status: Status) -> Result<bool, AllocError>
        requires { t < length self.old.threads }
        ensures { (p : Program) (x : PlainThread) → slice_get self.old.threads t ≡ Some x → IsStep
            (step_at p self.old t x (acts.Notify one) (plain_status_of status)) self.old
            self.new result }
    {
        match status {
            Status::Notify(m) => self.notify(t, m, one),
            _ => Ok(false),
        }
    }

    /// A thread that is to notify all does so.
    fn notify_all_step(&mut self, t: u8, status: Status) -> Result<bool, AllocError>
        requires { t < length self.old.threads }
        ensures { (p : Program) (x : PlainThread) → slice_get self.old.threads t ≡ Some x → IsStep
            (step_at p self.old t x acts.NotifyAll (plain_status_of status)) self.old self.new
            result }
    {
        match status {
            Status::NotifyAll(m) => {
                self.notify_all(t, m);
                Ok(true)
            }
            _ => Ok(false),
        }
    }

    /// A thread that was woken takes its monitor back.
    fn retake_step(&mut self, t: u8, status: Status) -> Result<bool, AllocError>
        requires { t < length self.old.threads }
        ensures { (p : Program) (x : PlainThread) → slice_get self.old.threads t ≡ Some x → IsStep
            (step_at p self.old t x acts.Retake (plain_status_of status)) self.old self.new
            result }
    {
        match status {
            Status::Woken(m, depth) => self.retake(t, m, depth),
            _ => Ok(false),
        }
    }

    /// A thread makes an instruction, or hands an exception to its top frame.
    fn do_step(
        &mut self,
        alloc: Global,
        p: &Checked,
        t: u8,
        status: Status,
    ) -> Result<bool, AllocError>
        requires thread { t < length self.old.threads }
        requires room { HasRoomForStep self.old }
        ensures { (x : PlainThread) → slice_get self.old.threads t ≡ Some x → IsStep
            (step_at p.now.program self.old t x acts.Do (plain_status_of status)) self.old
            self.new result }
    {
        match status {
            Status::Run => self.instruct(alloc, p, t),
            Status::Throw(object, class) => self.dispatch(alloc, p, t, object, class),
            _ => Ok(false),
        }
    }

    /// A thread does its act, by what it is about.
    fn act(
        &mut self,
        alloc: Global,
        p: &Checked,
        t: u8,
        act: Act,
        status: Status,
    ) -> Result<bool, AllocError>
        requires thread { t < length self.old.threads }
        requires room { HasRoomForStep self.old }
        ensures { (x : PlainThread) → slice_get self.old.threads t ≡ Some x → IsStep
            (step_at p.now.program self.old t x act (plain_status_of status)) self.old self.new
            result }
    {
        match act {
            Act::Begin => self.begin(alloc, p, t, status),
            Act::Do => self.do_step(alloc, p, t, status),
            Act::Enter => self.enter_step(t, status),
            Act::Exit => self.exit_step(alloc, p, t, status),
            Act::Wait => self.wait_step(t, status),
            Act::Notify(one) => self.notify_step(t, one, status),
            Act::NotifyAll => self.notify_all_step(t, status),
            Act::Retake => self.retake_step(t, status),
        }
    }

    /// Makes one step (JVMS 2.11.10; JLS 17.1, 17.2). `Ok(false)`: there is no such step, and
    /// nothing has changed. An error: there was no memory, and nothing has changed.
    pub fn step(&mut self, alloc: Global, p: &Checked, step: PlainStep) -> Result<bool, AllocError>
        requires { HasRoomForStep self.old }
        ensures { IsStep (plain_step p.now.program self.old step) self.old self.new result }
    {
        let status = match self.threads.get(step.thread) {
            Some(thread) => thread.status(),
            None => return Ok(false),
        };
        self.act(alloc, p, step.thread, step.act, status)
    }
}
