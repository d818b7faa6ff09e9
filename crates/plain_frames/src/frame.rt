//! One frame.

ghost use Rattle.std.specs.Prelude.{◌≡◌, IfOk, true};

use jvm_types::Rows;
use std::alloc::{AllocError, Global};
use std::marker::Model;

/// A frame of a method (JVMS 2.6). Contracts see it as the definitions do, its stack with the top
/// first.
#[derive(Debug, Drop)]
pub struct Frame {
    method: u32,
    pc: u32,
    receiver: u64,
    locals: Rows<u64>,
    /// With the top first.
    stack: Rows<u64>,
}

impl Model for Frame {
    ghost use Rattle.machine_types.specs.Threads.{Frame as Plain};

    ghost Value = { Plain };

    ghost view = { λ f.
        record {
          method = f.method;
          pc = f.pc;
          receiver = f.receiver;
          locals = f.locals;
          stack = f.stack;
        } };
}

impl Frame {
    pub fn of(method: u32, pc: u32, receiver: u64, locals: Rows<u64>, stack: Rows<u64>) -> Frame
        ensures { result ≡ record
            { method = method; pc = pc; receiver = receiver; locals = locals; stack = stack } }
    {
        Frame {
            method,
            pc,
            receiver,
            locals,
            stack,
        }
    }

    pub fn method(&self) -> u32
        ensures { result ≡ self.now.method }
    {
        self.method
    }

    pub fn pc(&self) -> u32
        ensures { result ≡ self.now.pc }
    {
        self.pc
    }

    pub fn receiver(&self) -> u64
        ensures { result ≡ self.now.receiver }
    {
        self.receiver
    }

    pub fn locals(&self) -> &[u64]
        ensures { result.now ≡ self.now.locals }
    {
        self.locals.as_slice()
    }

    /// The stack, its top first.
    pub fn stack(&self) -> &[u64]
        ensures { result.now ≡ self.now.stack }
    {
        self.stack.as_slice()
    }

    /// The same frame at another pc, with other locals and another stack.
    pub fn changed(&self, pc: u32, locals: Rows<u64>, stack: Rows<u64>) -> Frame
        ensures { result ≡ record self.now { pc = pc; locals = locals; stack = stack } }
    {
        Frame::of(self.method, pc, self.receiver, locals, stack)
    }

    /// The same frame at another pc, with another stack and a copy of its locals.
    pub fn moved(&self, alloc: Global, pc: u32, stack: Rows<u64>) -> Result<Frame, AllocError>
        ensures { IfOk result (λ f. f ≡ record self.now { pc = pc; stack = stack }) }
    {
        let locals = Rows::from_slice(alloc, self.locals())?;
        Ok(self.changed(pc, locals, stack))
    }

    /// The same frame again.
    pub fn copy(&self, alloc: Global) -> Result<Frame, AllocError>
        ensures { IfOk result (λ f. f ≡ self.now) }
    {
        let locals = Rows::from_slice(alloc, self.locals())?;
        let stack = Rows::from_slice(alloc, self.stack())?;
        Ok(Frame::of(self.method, self.pc, self.receiver, locals, stack))
    }

    /// `true`: the other frame is the same.
    pub fn is_same(&self, other: &Frame) -> bool
        ensures { result ≡ true → self.now ≡ other.now }
    {
        self.method == other.method
            && self.pc == other.pc
            && self.receiver == other.receiver
            && self.locals() == other.locals()
            && self.stack() == other.stack()
    }
}
