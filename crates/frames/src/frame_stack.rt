//! The frames of a thread in one array of slots.

ghost use Rattle.std.specs.Prelude.{◌≡◌, ◌+◌, ◌-◌, ◌≤◌, ◌<◌, [], ◌∷◌, length, take, drop};
ghost use Rattle.std.specs.Prelude.{slice_index, slice_set, IfOk};
ghost use Rattle.frames.specs.FrameLists.{top, below, with_top, max_stack};
ghost use Rattle.jvm_types.specs.declared.limits.TheConstants.{MOST_SLOTS};

mod running_frames;

use crate::arguments::argument_count;
use crate::head::{Head, SLOTS, StackOverflow};
use crate::laying::{copy_slots, lay, lay_root, receiver_at};
use jvm_types::flags::is_static;
use jvm_types::limits::MOST_FRAMES;
use jvm_types::{MethodInfo, Program};
use lists::Told;
pub use running_frames::RunningFrames;
use std::alloc::{AllocError, Global};
use std::marker::Model;

/// The frames of methods of one program, which contracts see as a list with the top frame first.
///
/// The heads of the frames and their slots fill two arrays from the end down; the head of the top
/// frame stands apart, so that a loop which has the frames by value keeps it at hand. Only `new`
/// takes memory.
#[derive(Drop)]
pub struct FrameStack {
    program: Told<Program>,
    top: Head,
    heads: Vec<Head>,
    start: usize,
    slots: Vec<u64>,
    free: usize,
}

impl Model for FrameStack {
    ghost use Rattle.std.specs.Prelude.{drop, slice_set};
    ghost use Rattle.frames.specs.FrameLists.{Frames};
    ghost use Rattle.frames.specs.Laid.{laid_frames, Laid};

    ghost Value = { Frames };

    ghost view = { λ s.
        record {
          program = s.program.told;
          frames =
              laid_frames (drop s.start (slice_set s.heads.items s.start s.top))
              (drop s.free s.slots.items);
        } };

    ghost invariant = { λ s.
        Laid s.program.told (slice_set s.heads.items s.start s.top) s.start s.slots.items
        s.free };
}

/// The head at a place, or another one where there is none.
#[inline(always)]
fn head_at(heads: &Vec<Head>, place: usize, none: Head) -> Head
    ensures { slice_set heads.now.items place result ≡ heads.now.items }
{
    if place < heads.len() {
        heads[place]
    } else {
        none
    }
}

impl FrameStack {
    /// No frames.
    pub fn new(alloc: Global, p: &Program) -> Result<FrameStack, AllocError>
        ensures { IfOk result (λ s. s ≡ record { program = p.now; frames = [] }) }
    {
        let none = Head {
            method: 0,
            pc: 0,
            receiver: 0,
            gap: 0,
            room: 0,
            size: 0,
        };
        Ok(FrameStack {
            program: Told::of(p),
            top: none,
            heads: vec![in alloc; none; MOST_FRAMES]?,
            start: MOST_FRAMES,
            slots: vec![in alloc; 0u64; SLOTS]?,
            free: SLOTS,
        })
    }

    /// How many frames there are.
    #[inline(always)]
    pub fn depth(&self) -> usize
        ensures depth { result ≡ length self.now.frames }
        ensures few { length self.now.frames ≤ MOST_FRAMES }
    {
        MOST_FRAMES - self.start
    }

    #[inline(always)]
    pub fn method(&self) -> u32
        requires { 0 < length self.now.frames }
        ensures { result ≡ (top self.now.frames).method }
    {
        self.top.method
    }

    #[inline(always)]
    pub fn pc(&self) -> u32
        requires { 0 < length self.now.frames }
        ensures { result ≡ (top self.now.frames).pc }
    {
        self.top.pc
    }

    #[inline(always)]
    pub fn receiver(&self) -> u64
        requires { 0 < length self.now.frames }
        ensures { result ≡ (top self.now.frames).receiver }
    {
        self.top.receiver
    }

    #[inline(always)]
    pub fn set_pc(&mut self, pc: u32)
        requires { 0 < length self.old.frames }
        ensures { self.new ≡ record self.old
            { frames = with_top (record (top self.old.frames) { pc = pc }) self.old.frames } }
    {
        self.top.pc = pc;
    }

    /// The stack of the top frame, its top first.
    #[inline(always)]
    pub fn stack(&self) -> &[u64]
        requires { 0 < length self.now.frames }
        ensures { result.now ≡ (top self.now.frames).stack }
    {
        let head = &self.top;
        &self.slots[self.free + head.gap..self.free + head.room]
    }

    /// The locals of the top frame.
    #[inline(always)]
    pub fn locals(&self) -> &[u64]
        requires { 0 < length self.now.frames }
        ensures { result.now ≡ (top self.now.frames).locals }
    {
        let head = &self.top;
        &self.slots[self.free + head.room..self.free + head.size]
    }

    /// How many values the stack of the top frame has.
    #[inline(always)]
    pub fn height(&self) -> u32
        requires { 0 < length self.now.frames }
        ensures { result ≡ length (top self.now.frames).stack }
    {
        let head = self.top;
        (head.room - head.gap) as u32
    }

    /// How many places of the top frame's stack hold no value.
    #[inline(always)]
    pub fn gap(&self) -> usize
        requires { 0 < length self.now.frames }
        ensures { result + length (top self.now.frames).stack
            ≡ max_stack self.now.program (top self.now.frames).method }
    {
        self.top.gap
    }

    /// The value that lies so many below the top of the top frame's stack.
    #[inline(always)]
    pub fn value(&self, down: u16) -> u64
        requires frame { 0 < length self.now.frames }
        requires value { down < length (top self.now.frames).stack }
        ensures { result ≡ slice_index (top self.now.frames).stack down }
    {
        self.slots[self.free + self.top.gap + down as usize]
    }

    #[inline(always)]
    pub fn push_value(&mut self, value: u64)
        requires frame { 0 < length self.old.frames }
        requires room { length (top self.old.frames).stack
            < max_stack self.old.program (top self.old.frames).method }
        ensures { self.new
            ≡ record self.old {
              frames =
                  with_top
                  (record (top self.old.frames) { stack = value ∷ (top self.old.frames).stack })
                  self.old.frames;
            } }
    {
        let left = self.top.gap - 1;
        self.slots[self.free + left] = value;
        self.top.gap = left;
    }

    #[inline(always)]
    pub fn pop_value(&mut self) -> u64
        requires frame { 0 < length self.old.frames }
        requires value { 0 < length (top self.old.frames).stack }
        ensures value { result ≡ slice_index (top self.old.frames).stack 0 }
        ensures rest { self.new
            ≡ record self.old {
              frames =
                  with_top
                  (record (top self.old.frames) { stack = drop 1 (top self.old.frames).stack })
                  self.old.frames;
            } }
    {
        let gap = self.top.gap;
        self.top.gap = gap + 1;
        self.slots[self.free + gap]
    }

    /// Drops so many values from the stack of the top frame.
    #[inline(always)]
    pub fn drop_values(&mut self, count: u16)
        requires frame { 0 < length self.old.frames }
        requires values { count ≤ length (top self.old.frames).stack }
        ensures { self.new
            ≡ record self.old {
              frames =
                  with_top
                  (record (top self.old.frames) { stack = drop count (top self.old.frames).stack })
                  self.old.frames;
            } }
    {
        let gap = self.top.gap;
        self.top.gap = gap + count as usize;
    }

    /// Drops all values of the top frame.
    #[inline(always)]
    pub fn clear_values(&mut self)
        requires { 0 < length self.old.frames }
        ensures { self.new ≡ record self.old
            { frames = with_top (record (top self.old.frames) { stack = [] }) self.old.frames } }
    {
        let room = self.top.room;
        self.top.gap = room;
    }

    /// A local of the top frame.
    #[inline(always)]
    pub fn local(&self, i: u16) -> u64
        requires frame { 0 < length self.now.frames }
        requires local { i < length (top self.now.frames).locals }
        ensures { result ≡ slice_index (top self.now.frames).locals i }
    {
        self.slots[self.free + self.top.room + i as usize]
    }

    #[inline(always)]
    pub fn set_local(&mut self, i: u16, value: u64)
        requires frame { 0 < length self.old.frames }
        requires local { i < length (top self.old.frames).locals }
        ensures { self.new
            ≡ record self.old {
              frames =
                  with_top (record (top self.old.frames)
                  { locals = slice_set (top self.old.frames).locals i value }) self.old.frames;
            } }
    {
        let at = self.free + self.top.room + i as usize;
        self.slots[at] = value;
    }

    /// Drops the top frame.
    #[inline(always)]
    pub fn pop_frame(&mut self)
        requires { 0 < length self.old.frames }
        ensures { self.new ≡ record self.old { frames = below self.old.frames } }
    {
        self.free += self.top.size;
        self.start += 1;
        self.top = head_at(&self.heads, self.start, self.top);
    }
}

impl FrameStack {
    ghost use Rattle.std.specs.Prelude.{slice_get, Some, true, false, OnOk, OnErr};
    ghost use Rattle.machine_types.specs.Frames.{has_room};
    ghost use Rattle.frames.specs.FrameLists.{argument_count, frames_of_call, frames_of_root};
    ghost use Rattle.frames.specs.FrameLists.{frames_entered, HasArguments};

    /// Whether a frame of the method fits on those that are there.
    #[inline(always)]
    pub fn has_room(&self, m: &MethodInfo) -> bool
        ensures { result ≡ has_room self.now.program self.now.frames m.now }
    {
        self.start > 0 && m.max_stack as usize + m.max_locals as usize <= self.free
    }

    /// The frame of a method that the top frame calls, with the arguments from its stack.
    #[inline(always)]
    fn push_called(&mut self, number: u32, m: &MethodInfo)
        requires method { slice_get self.old.program.methods number ≡ Some m.now }
        requires fits { argument_count m.now ≤ m.now.max_locals }
        requires room { has_room self.old.program self.old.frames m.now ≡ true }
        requires frame { 0 < length self.old.frames }
        requires given { argument_count m.now ≤ length (top self.old.frames).stack }
        ensures { self.new ≡ record self.old
            { frames = frames_of_call number m.now (top self.old.frames) (below self.old.frames) } }
    {
        let stack = m.max_stack as usize;
        let locals = m.max_locals as usize;
        let at = self.free - (stack + locals);
        let count = argument_count(m);
        let gap = self.top.gap;
        lay(
            &mut self.slots[..],
            self.free + gap,
            count,
            at + stack,
            locals,
        );
        let receiver = receiver_at(self.slots.as_slice(), at + stack, is_static(m.flags));
        self.top.gap = gap + count;
        self.heads[self.start] = self.top;
        self.start -= 1;
        self.top = Head {
            method: number,
            pc: 0,
            receiver,
            gap: stack,
            room: stack,
            size: stack + locals,
        };
        self.free = at;
    }

    /// The frame of a root of thread `t`.
    fn push_root(&mut self, number: u32, m: &MethodInfo, t: u8)
        requires method { slice_get self.old.program.methods number ≡ Some m.now }
        requires fits { argument_count m.now ≤ m.now.max_locals }
        requires room { has_room self.old.program self.old.frames m.now ≡ true }
        requires none { self.old.frames ≡ [] }
        ensures { self.new ≡ record self.old { frames = frames_of_root t number m.now } }
    {
        let stack = m.max_stack as usize;
        let locals = m.max_locals as usize;
        let at = self.free - (stack + locals);
        lay_root(&mut self.slots[..], t, m.args.len(), at + stack, locals);
        let receiver = receiver_at(self.slots.as_slice(), at + stack, is_static(m.flags));
        self.start -= 1;
        self.top = Head {
            method: number,
            pc: 0,
            receiver,
            gap: stack,
            room: stack,
            size: stack + locals,
        };
        self.free = at;
    }

    /// The frame of a method that the top frame calls.
    #[inline(always)]
    pub fn push_call(&mut self, number: u32, m: &MethodInfo) -> Result<(), StackOverflow>
        requires method { slice_get self.old.program.methods number ≡ Some m.now }
        requires fits { argument_count m.now ≤ m.now.max_locals }
        requires frame { 0 < length self.old.frames }
        requires given { argument_count m.now ≤ length (top self.old.frames).stack }
        ensures ok { OnOk result (self.new ≡ record self.old {
          frames = frames_of_call number m.now (top self.old.frames) (below self.old.frames);
        }) }
        ensures room { OnOk result (has_room self.old.program self.old.frames m.now ≡ true) }
        ensures err { OnErr result (self.new ≡ self.old) }
        ensures full { OnErr result (has_room self.old.program self.old.frames m.now ≡ false) }
    {
        if !self.has_room(m) {
            return Err(StackOverflow);
        }
        self.push_called(number, m);
        Ok(())
    }

    /// A frame of the method: of a root of thread `t`, where there is none, else of a call.
    #[inline(always)]
    pub fn push_frame(&mut self, number: u32, m: &MethodInfo, t: u8) -> Result<(), StackOverflow>
        requires method { slice_get self.old.program.methods number ≡ Some m.now }
        requires fits { argument_count m.now ≤ m.now.max_locals }
        requires given { HasArguments m.now self.old.frames }
        ensures ok { OnOk result (self.new
            ≡ record self.old { frames = frames_entered t number m.now self.old.frames }) }
        ensures room { OnOk result (has_room self.old.program self.old.frames m.now ≡ true) }
        ensures err { OnErr result (self.new ≡ self.old) }
        ensures full { OnErr result (has_room self.old.program self.old.frames m.now ≡ false) }
    {
        if self.depth() > 0 {
            return self.push_call(number, m);
        }
        if !self.has_room(m) {
            return Err(StackOverflow);
        }
        self.push_root(number, m, t);
        Ok(())
    }
}

impl FrameStack {
    ghost use Rattle.frames.specs.Laid.{frame_of, HeadFits};
    ghost use Rattle.frames.specs.FrameLists.{deepest};

    /// Copies the slots of the top frame, and answers its head.
    #[inline(always)]
    pub fn copy_top(&self, kept: &mut Vec<u64>) -> Head
        requires frame { 0 < length self.now.frames }
        requires room { length kept.old.items ≡ MOST_SLOTS }
        ensures room { length kept.new.items ≡ MOST_SLOTS }
        ensures copy { frame_of result kept.new.items ≡ top self.now.frames }
        ensures fits { HeadFits self.now.program result }
    {
        let head = self.top;
        copy_slots(self.slots.as_slice(), self.free, kept, 0, head.size);
        head
    }

    /// The copy takes the place of the top frame.
    pub fn put_top(&mut self, head: Head, kept: &Vec<u64>)
        requires frame { 0 < length self.old.frames }
        requires room { length kept.now.items ≡ MOST_SLOTS }
        requires fits { HeadFits self.old.program head }
        requires alike { head.method ≡ (top self.old.frames).method }
        ensures { self.new
            ≡ record self.old { frames = with_top (frame_of head kept.now.items) self.old.frames } }
    {
        copy_slots(kept.as_slice(), 0, &mut self.slots, self.free, head.size);
        self.top = head;
    }

    /// Drops the frames above the deepest `count`.
    pub fn drop_to(&mut self, count: usize)
        requires { count ≤ length self.old.frames }
        ensures { self.new ≡ record self.old { frames = deepest count self.old.frames } }
    {
        while self.depth() > count {
            self.pop_frame();
        }
    }
}
