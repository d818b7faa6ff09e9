//! The steps of instructions and exceptions.

ghost use Rattle.std.specs.Prelude.{◌≡◌, ◌<◌, length, slice_get, Some, OnOk, OnErr};
ghost use Rattle.machine_types.specs.PlainState.{PlainThread, with_thread, plain_goes_on};
ghost use Rattle.machine_types.specs.PlainSteps.{step_at};
ghost use Rattle.machine_types.specs.PlainState as plain;
ghost use Rattle.machine_types.specs.declared.plain.Act.TheVariants as acts;
ghost use Rattle.history_rule.specs.Deeds.{deed_done};
ghost use Rattle.history_rule.specs.Small.{HasRoomForStep};
ghost use Rattle.history_rule.specs.Steps.{IsStep};

use crate::deed::Deed;
use crate::plain_state::PlainState;
use crate::printed::Printed;
use checked_program::Checked;
use heap_words::ready;
use jvm_types::Thrown;
use plain_frames::dispatched;
use plain_threads::Status;
use std::alloc::{AllocError, Global};

impl PlainState {
    /// Does what was planned for a thread.
    fn do_deed(&mut self, alloc: Global, t: u8, deed: Deed) -> Result<bool, AllocError>
        requires { t < length self.old.threads }
        ensures { (x : PlainThread) → slice_get self.old.threads t ≡ Some x
            → IsStep (deed_done self.old t x x.frames deed) self.old self.new result }
    {
        match deed {
            Deed::Stuck => return Ok(false),
            Deed::Goes(onward) => self.threads.go_on(alloc, t, onward)?,
            Deed::Writes(place, value, frame) => {
                self.memory.write(place, value);
                self.threads.goes_to(t, frame, Status::Run);
            }
            Deed::Makes(header, size, next, frame) => {
                self.memory.add(alloc, header, size, next)?;
                self.threads.goes_to(t, frame, Status::Run);
            }
            Deed::Passes(next) => {
                self.memory.pass(next);
                let object = ready(Thrown::OutOfMemoryError) as u64;
                self.threads
                    .set_status(t, Status::Throw(object, Thrown::OutOfMemoryError));
            }
            Deed::Prints(value, frame) => {
                self.prints.push(Printed::of(t, value))?;
                self.threads.goes_to(t, frame, Status::Run);
            }
            Deed::Asks(status, frame) => self.threads.goes_to(t, frame, status),
        }
        Ok(true)
    }

    /// An exception is handed to the top frame of a thread.
    pub fn dispatch(
        &mut self,
        alloc: Global,
        p: &Checked,
        t: u8,
        object: u64,
        class: Thrown,
    ) -> Result<bool, AllocError>
        requires { t < length self.old.threads }
        ensures { (x : PlainThread) → slice_get self.old.threads t ≡ Some x → IsStep
            (step_at p.now.program self.old t x acts.Do (plain.Throw object class)) self.old
            self.new result }
    {
        let onward = dispatched(alloc, p, object, class, self.threads.at(t).frames())?;
        match onward {
            Some(onward) => {
                self.threads.go_on(alloc, t, onward)?;
                Ok(true)
            }
            None => Ok(false),
        }
    }

    /// A thread makes the instruction that its top frame stands at.
    pub fn instruct(&mut self, alloc: Global, p: &Checked, t: u8) -> Result<bool, AllocError>
        requires thread { t < length self.old.threads }
        requires room { HasRoomForStep self.old }
        ensures { (x : PlainThread) → slice_get self.old.threads t ≡ Some x → IsStep
            (step_at p.now.program self.old t x acts.Do plain.Run) self.old self.new result }
    {
        let deed = self.plan(alloc, p, t)?;
        self.do_deed(alloc, t, deed)
    }
}
