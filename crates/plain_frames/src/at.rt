//! Where a frame stands.

ghost use Rattle.std.specs.Prelude.{◌≡◌, ◌∷◌, drop, IfSome, OnSome};
ghost use Rattle.machine_types.specs.Frames.{top_of, frames_of, has_room};

use crate::calls::has_room;
use crate::frame::Frame;
use checked_program::Checked;
use jvm_types::{Insn, MethodInfo, Stack, Target};
use std::marker::Model;

/// A frame with those below it, at an instruction of its method.
#[derive(Debug, Drop)]
pub struct At<'a> {
    frames: &'a Stack<Frame>,
    /// How many frames stand above it.
    down: usize,
    frame: &'a Frame,
    method: &'a MethodInfo,
    insn: &'a Insn,
    target: Target,
}

impl<'a> Model for At<'a> {
    ghost use Rattle.std.specs.Prelude.{◌≡◌, ◌∷◌, ◌+◌, drop};
    ghost use Rattle.machine_types.specs.Frames.{Top};

    ghost Value = { Top };

    ghost view = { λ at.
        record {
          frame = at.frame.now;
          below = drop (at.down + 1) at.frames.now;
          method = at.method.now;
          insn = at.insn.now;
          target = at.target;
        } };

    ghost invariant = { λ at. drop at.down at.frames.now ≡ at.frame.now ∷ drop (at.down + 1) at.frames.now };
}

impl<'a> At<'a> {
    pub fn frame(&self) -> &'a Frame
        ensures { result.now ≡ self.now.frame }
    {
        self.frame
    }

    pub fn method(&self) -> &'a MethodInfo
        ensures { result.now ≡ self.now.method }
    {
        self.method
    }

    pub fn insn(&self) -> &'a Insn
        ensures { result.now ≡ self.now.insn }
    {
        self.insn
    }

    pub fn target(&self) -> Target
        ensures { result ≡ self.now.target }
    {
        self.target
    }

    /// Whether a frame of the method fits on top.
    pub fn has_room(&self, p: &Checked, m: &MethodInfo) -> bool
        ensures { result ≡ has_room p.now.program (frames_of self.now) m.now }
    {
        has_room(p, self.frames, self.down, m)
    }

    /// Where the frame below it stands.
    pub fn caller(&self, p: &'a Checked) -> Option<At<'a>>
        ensures top { result ≡ top_of p.now.program self.now.below }
        ensures frames { IfSome result (λ at. frames_of at ≡ self.now.below) }
    {
        if self.frames.len() <= self.down.saturating_add(1) {
            return None;
        }
        at_place(p, self.frames, self.down + 1)
    }
}

/// The frame that has so many above it, where there is one that stands at an instruction.
fn at_place<'a>(p: &'a Checked, frames: &'a Stack<Frame>, down: usize) -> Option<At<'a>>
    ensures { result ≡ top_of p.now.program (drop down frames.now) }
{
    let frame = frames.get(down)?;
    let method = p.program().methods.get(frame.method() as usize)?;
    let number = p.number_at(frame.method(), frame.pc())?;
    let insn = method.code.get(number)?;
    let target = method.targets.get(number)?;
    Some(At {
        frames,
        down,
        frame,
        method,
        insn,
        target: *target,
    })
}

/// The top frame, where there is one that stands at an instruction.
pub fn top_of<'a>(p: &'a Checked, frames: &'a Stack<Frame>) -> Option<At<'a>>
    ensures top { result ≡ top_of p.now.program frames.now }
    ensures frames { IfSome result (λ at. frames_of at ≡ frames.now) }
{
    at_place(p, frames, 0)
}
