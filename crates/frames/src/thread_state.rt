//! The state of a thread (JVMS 2.5, 2.6).

ghost use Rattle.std.specs.Prelude.{◌≡◌, ◌+◌, ◌-◌, ◌≤◌, ◌<◌, [], ◌∷◌, ◌++◌, length, take, drop};
ghost use Rattle.std.specs.Prelude.{slice_get, slice_index, slice_set, option_map, IfOk, IfSome};
ghost use Rattle.std.specs.Prelude.{IsSome, Some, None, OnOk, OnErr, true, false};
ghost use Rattle.checked_program.specs.MarkedProgram.{MarkedProgram};
ghost use Rattle.machine_types.specs.Core.{start_thread, part_phase, is_live, how_ended};
ghost use Rattle.machine_types.specs.Core.{reported_end, report_of, with_roots};
ghost use Rattle.machine_types.specs.Frames.{has_room};
ghost use Rattle.jvm_types.specs.declared.limits.TheConstants.{MOST_FRAMES};
ghost use Rattle.machine_types.specs.HeldMonitors.{held_at, with_held, without_held, places_of};
ghost use Rattle.machine_types.specs.Threads.{Frame, Attempt, head_of};
ghost use Rattle.frames.specs.FrameLists.{top, below, with_top, max_stack, frames_entered};
ghost use Rattle.frames.specs.FrameLists.{HasArguments};
ghost use Rattle.frames.specs.KeptAttempts.{IsBased, restored, with_inner};
ghost use Rattle.frames.specs.RootLists.{later_roots};
ghost use Rattle.frames.specs.ThreadParts.{start_phase, part_begun};

use crate::attempt_entry::AttemptEntry;
use crate::frame_stack::FrameStack;
use crate::head::{SLOTS, StackOverflow};
use crate::held::{HeldList, places};
use crate::roots::Roots;
use checked_program::{Checked, SectionMark, Tags};
use jvm_types::{Counts, End, Print, Room, Rows, ThreadReport, Typing};
use lists::Told;
use machine_types::{AttemptHead, Config, Held, Phase};
use std::alloc::{AllocError, Global};
use std::marker::Model;
use std::mem::replace;

/// The state of a thread of one program. Contracts see its parts by themselves, its frames as a
/// list with the top frame first and each stack with its top first.
///
/// Only `start` takes memory. That of prints and held monitors is not touched before it is used.
#[derive(Drop)]
pub struct ThreadState {
    typings: Told<Rows<Typing>>,
    tags: Told<Rows<Tags>>,
    marks: Told<Rows<SectionMark>>,
    cfg: Config,
    number: u8,
    phase: Phase,
    frames: FrameStack,
    /// What stands in the place of the frames while a loop has them.
    spare: Option<FrameStack>,
    held: HeldList,
    attempt: Option<AttemptEntry>,
    kept: Vec<u64>,
    roots: Roots,
    turns: u32,
    counts: Counts,
    prints: Room<Print>,
    part: u8,
    first: Option<End>,
}

impl Model for ThreadState {
    ghost use Rattle.std.specs.Prelude.{◌≡◌, ◌≤◌, ◌+◌, ◌*◌, length, option_map, IfSome};
    ghost use Rattle.jvm_types.specs.declared.limits.TheConstants.{MOST_FRAMES};
    ghost use Rattle.machine_types.specs.HeldMonitors.{most_held};
    ghost use Rattle.machine_types.specs.Threads.{Thread};
    ghost use Rattle.frames.specs.KeptAttempts.{attempt_of, IsKept};
    ghost use Rattle.frames.specs.RootLists.{later_roots};

    ghost Value = { Thread };

    ghost view = { λ s.
        record {
          program =
              record {
                program = s.frames.program;
                typings = s.typings.told;
                tags = s.tags.told;
                marks = s.marks.told;
              };
          cfg = s.cfg;
          number = s.number;
          phase = s.phase;
          frames = s.frames.frames;
          held = s.held.entries;
          attempt = option_map (attempt_of s.kept.items) s.attempt;
          roots = s.roots.left;
          turns = s.turns;
          counts = s.counts;
          prints = s.prints.items;
          part = s.part;
          first = s.first;
        } };

    ghost invariant = { λ s.
        IsKept s.frames.program s.kept.items s.attempt
        × (MOST_FRAMES * (1 + most_held s.tags.told) ≤ s.held.places)
        × IfSome s.spare (λ f. f.program ≡ s.frames.program)
        × (s.cfg.prints ≤ length s.prints.items + s.prints.spare)
        × (length s.prints.items ≤ s.cfg.prints)
        × (s.roots.later ≡ later_roots s.frames.program s.number) };
}

/// The phase of a thread whose part begins with these roots.
fn part_phase(roots: &Roots) -> Phase
    ensures { result ≡ part_phase roots.now.left }
{
    if roots.left() == 0 {
        Phase::Ended(End::Returned)
    } else {
        Phase::Start
    }
}

/// The phase of a thread at the start of the run.
fn start_phase(number: u8, roots: &Roots) -> Phase
    ensures { result ≡ start_phase number roots.now.left }
{
    if number == 0 {
        part_phase(roots)
    } else {
        Phase::Idle
    }
}

/// How a part ended, or `None` where it goes on.
fn how_ended(phase: Phase) -> Option<End>
    ensures { result ≡ how_ended phase }
{
    match phase {
        Phase::Ended(e) => Some(e),
        _ => None,
    }
}

/// How a report says that the thread ended.
fn reported_end(phase: Phase, first: Option<End>) -> End
    ensures { result ≡ reported_end phase first }
{
    match first {
        Some(e) => e,
        None => match phase {
            Phase::Ended(e) => e,
            _ => End::NotRun,
        },
    }
}

// The start and the end of a run.
impl ThreadState {
    /// The thread of this number at the start of a run of a checked program. It takes all
    /// the memory that the thread will use.
    pub fn start(
        alloc: Global,
        number: u8,
        p: &Checked,
        cfg: &Config,
    ) -> Result<ThreadState, AllocError>
        ensures { IfOk result (λ s. s ≡ start_thread p.now cfg.now number) }
    {
        let roots = Roots::of(alloc, p.program(), number)?;
        let phase = start_phase(number, &roots);
        Ok(ThreadState {
            typings: Told::of(p.typings()),
            tags: Told::of(p.tags()),
            marks: Told::of(p.marks()),
            cfg: *cfg,
            number,
            phase,
            frames: FrameStack::new(alloc, p.program())?,
            spare: Some(FrameStack::new(alloc, p.program())?),
            held: HeldList::with_places(alloc, places(p.tags())?)?,
            attempt: None,
            kept: vec![in alloc; 0u64; SLOTS]?,
            roots,
            turns: 0,
            counts: Counts {
                instructions: 0,
                elided: 0,
                failed: 0,
                locked: 0,
                inflated: 0,
            },
            prints: Room::with_room(alloc, cfg.prints as usize)?,
            part: 0,
            first: None,
        })
    }

    /// The roots of its later part are left, and its phase is that of their begin.
    fn begin_roots(&mut self)
        ensures { self.new
            ≡ with_roots (later_roots self.old.program.program self.old.number) self.old }
    {
        self.roots.begin_later();
        self.phase = part_phase(&self.roots);
    }

    /// The thread's share of the begin of a part: a worker is given the roots of `run`, and thread
    /// 0 those of `done` when it has seen the workers' part begin, where it keeps how `init` ended.
    pub fn begin_part(&mut self)
        ensures { self.new ≡ part_begun self.old.program.program self.old }
    {
        if self.number > 0 {
            self.begin_roots();
        } else if self.part > 0 {
            self.part = 2;
            self.begin_roots();
        } else {
            self.part = 1;
            self.first = how_ended(self.phase);
        }
    }

    /// The report of the thread. Its end is that of the part, and of thread 0 that of `init`, once
    /// another part began.
    pub fn into_report(self) -> ThreadReport
        ensures { result ≡ report_of self }
    {
        ThreadReport {
            end: reported_end(self.phase, self.first),
            prints: self.prints.into_rows(),
            counts: self.counts,
        }
    }
}

// Its own fields.
impl ThreadState {
    #[inline(always)]
    pub fn number(&self) -> u8
        ensures { result ≡ self.now.number }
    {
        self.number
    }

    #[inline(always)]
    pub fn config(&self) -> Config
        ensures { result ≡ self.now.cfg }
    {
        self.cfg
    }

    #[inline(always)]
    pub fn phase(&self) -> Phase
        ensures { result ≡ self.now.phase }
    {
        self.phase
    }

    #[inline(always)]
    pub fn set_phase(&mut self, phase: Phase)
        ensures { self.new ≡ record self.old { phase = phase } }
    {
        self.phase = phase;
    }

    /// Whether it has begun its part and not ended.
    #[inline(always)]
    pub fn is_live(&self) -> bool
        ensures { result ≡ is_live self.now.phase }
    {
        match self.phase {
            Phase::Idle | Phase::Ended(_) => false,
            _ => true,
        }
    }

    /// How its part ended, or `None` where it has not.
    pub fn end(&self) -> Option<End>
        ensures { result ≡ how_ended self.now.phase }
    {
        how_ended(self.phase)
    }

    #[inline(always)]
    pub fn counts(&self) -> Counts
        ensures { result ≡ self.now.counts }
    {
        self.counts
    }

    #[inline(always)]
    pub fn set_counts(&mut self, counts: Counts)
        ensures { self.new ≡ record self.old { counts = counts } }
    {
        self.counts = counts;
    }

    /// Failed turns since the last entry or wait.
    #[inline(always)]
    pub fn turns(&self) -> u32
        ensures { result ≡ self.now.turns }
    {
        self.turns
    }

    #[inline(always)]
    pub fn set_turns(&mut self, turns: u32)
        ensures { self.new ≡ record self.old { turns = turns } }
    {
        self.turns = turns;
    }

    /// Of thread 0, how many parts came after `init`.
    #[inline(always)]
    pub fn part(&self) -> u8
        ensures { result ≡ self.now.part }
    {
        self.part
    }

    /// How many roots its part has still to run.
    #[inline(always)]
    pub fn roots_left(&self) -> u32
        ensures { result ≡ length self.now.roots }
    {
        self.roots.left()
    }

    /// Takes the first of the roots, or answers `None` where there is none.
    pub fn next_root(&mut self) -> Option<u32>
        ensures root { result ≡ slice_get self.old.roots 0 }
        ensures rest { self.new ≡ record self.old { roots = drop 1 self.old.roots } }
    {
        self.roots.take_first()
    }

    #[inline(always)]
    pub fn prints_made(&self) -> u32
        ensures { result ≡ length self.now.prints }
    {
        // a limit of prints is a `u32`
        let _most = self.cfg.prints;
        self.prints.len() as u32
    }

    pub fn add_print(&mut self, print: Print)
        requires { length self.old.prints < self.old.cfg.prints }
        ensures { self.new ≡ record self.old { prints = self.old.prints ++ print ∷ [] } }
    {
        self.prints.push(print);
    }
}

// What it holds.
impl ThreadState {
    /// The entry of a monitor that it holds.
    #[inline(always)]
    pub fn held(&self, monitor: u32) -> Option<Held>
        ensures { result ≡ held_at self.now.held monitor }
    {
        self.held.at(monitor)
    }

    /// The entry of the monitor becomes this one, or this one is added.
    pub fn put_held(&mut self, held: Held)
        requires { held_at self.old.held held.monitor ≡ None
            → length self.old.held < places_of self.old.program }
        ensures { self.new ≡ record self.old { held = with_held held self.old.held } }
    {
        self.held.put(held);
    }

    /// The entry of a monitor that it did not hold is added.
    #[inline(always)]
    pub fn add_held(&mut self, held: Held)
        requires none { held_at self.old.held held.monitor ≡ None }
        requires room { length self.old.held < places_of self.old.program }
        ensures { self.new ≡ record self.old { held = with_held held self.old.held } }
    {
        self.held.add(held);
    }

    /// Drops the entry of a monitor, where it has one.
    #[inline(always)]
    pub fn drop_held(&mut self, monitor: u32)
        ensures { self.new ≡ record self.old { held = without_held monitor self.old.held } }
    {
        self.held.remove(monitor);
    }
}

// Its frames.
impl ThreadState {
    /// How many frames there are.
    #[inline(always)]
    pub fn depth(&self) -> u32
        ensures depth { result ≡ length self.now.frames }
        ensures few { length self.now.frames ≤ MOST_FRAMES }
    {
        self.frames.depth() as u32
    }

    /// The number of the method of the top frame.
    #[inline(always)]
    pub fn method(&self) -> u32
        requires { 0 < length self.now.frames }
        ensures { result ≡ (top self.now.frames).method }
    {
        self.frames.method()
    }

    #[inline(always)]
    pub fn pc(&self) -> u32
        requires { 0 < length self.now.frames }
        ensures { result ≡ (top self.now.frames).pc }
    {
        self.frames.pc()
    }

    /// The reference that local 0 of an instance method began with; 0 for a static method.
    #[inline(always)]
    pub fn receiver(&self) -> u32
        requires frame { 0 < length self.now.frames }
        requires reference { (top self.now.frames).receiver < 4294967296 }
        ensures { result ≡ (top self.now.frames).receiver }
    {
        self.frames.receiver() as u32
    }

    #[inline(always)]
    pub fn set_pc(&mut self, pc: u32)
        requires { 0 < length self.old.frames }
        ensures { self.new ≡ record self.old
            { frames = with_top (record (top self.old.frames) { pc = pc }) self.old.frames } }
    {
        self.frames.set_pc(pc);
    }

    /// A local of the top frame.
    #[inline(always)]
    pub fn local(&self, i: u16) -> u64
        requires frame { 0 < length self.now.frames }
        requires local { i < length (top self.now.frames).locals }
        ensures { result ≡ slice_index (top self.now.frames).locals i }
    {
        self.frames.local(i)
    }

    #[inline(always)]
    pub fn set_local(&mut self, i: u16, value: u64)
        requires frame { 0 < length self.old.frames }
        requires local { i < length (top self.old.frames).locals }
        ensures { self.new
            ≡ record self.old {
              frames =
                  with_top (record (top self.old.frames)
                  { locals = slice_set (top self.old.frames).locals i value }) self.old.frames;
            } }
    {
        self.frames.set_local(i, value);
    }

    /// The stack of the top frame, its top first.
    #[inline(always)]
    pub fn stack(&self) -> &[u64]
        requires { 0 < length self.now.frames }
        ensures { result.now ≡ (top self.now.frames).stack }
    {
        self.frames.stack()
    }

    /// The locals of the top frame.
    #[inline(always)]
    pub fn locals(&self) -> &[u64]
        requires { 0 < length self.now.frames }
        ensures { result.now ≡ (top self.now.frames).locals }
    {
        self.frames.locals()
    }

    /// How many values the stack of the top frame has.
    #[inline(always)]
    pub fn height(&self) -> u32
        requires { 0 < length self.now.frames }
        ensures { result ≡ length (top self.now.frames).stack }
    {
        self.frames.height()
    }

    /// The value that lies so many below the top of the top frame's stack.
    #[inline(always)]
    pub fn value(&self, down: u16) -> u64
        requires frame { 0 < length self.now.frames }
        requires value { down < length (top self.now.frames).stack }
        ensures { result ≡ slice_index (top self.now.frames).stack down }
    {
        self.frames.value(down)
    }

    #[inline(always)]
    pub fn push_value(&mut self, value: u64)
        requires frame { 0 < length self.old.frames }
        requires room { length (top self.old.frames).stack
            < max_stack self.old.program.program (top self.old.frames).method }
        ensures { self.new
            ≡ record self.old {
              frames =
                  with_top
                  (record (top self.old.frames) { stack = value ∷ (top self.old.frames).stack })
                  self.old.frames;
            } }
    {
        self.frames.push_value(value);
    }

    #[inline(always)]
    pub fn pop_value(&mut self) -> u64
        requires frame { 0 < length self.old.frames }
        requires value { 0 < length (top self.old.frames).stack }
        ensures value { result ≡ slice_index (top self.old.frames).stack 0 }
        ensures rest { self.new
            ≡ record self.old {
              frames =
                  with_top
                  (record (top self.old.frames) { stack = drop 1 (top self.old.frames).stack })
                  self.old.frames;
            } }
    {
        self.frames.pop_value()
    }

    /// Drops so many values from the stack of the top frame.
    #[inline(always)]
    pub fn drop_values(&mut self, count: u16)
        requires frame { 0 < length self.old.frames }
        requires values { count ≤ length (top self.old.frames).stack }
        ensures { self.new
            ≡ record self.old {
              frames =
                  with_top
                  (record (top self.old.frames) { stack = drop count (top self.old.frames).stack })
                  self.old.frames;
            } }
    {
        self.frames.drop_values(count);
    }

    /// Drops all values of the top frame.
    #[inline(always)]
    pub fn clear_values(&mut self)
        requires { 0 < length self.old.frames }
        ensures { self.new ≡ record self.old
            { frames = with_top (record (top self.old.frames) { stack = [] }) self.old.frames } }
    {
        self.frames.clear_values();
    }

    /// A frame of this method of the program: of a root where there is no frame, else of a call,
    /// which takes its arguments from the stack of the top frame. Where there are 256 frames, or
    /// its slots and theirs are more than 16,384, it answers `StackOverflow`, and nothing changes.
    pub fn push_frame(&mut self, p: &Checked, method: u32) -> Result<(), StackOverflow>
        requires program { p.now ≡ self.old.program }
        requires method { method < length p.now.program.methods }
        requires given { IfSome (slice_get p.now.program.methods method)
            (λ m. HasArguments m self.old.frames) }
        ensures ok { OnOk result (IfSome (slice_get p.now.program.methods method) (λ m.
            self.new ≡ record self.old
            { frames = frames_entered self.old.number method m self.old.frames })) }
        ensures room { OnOk result (IfSome (slice_get p.now.program.methods method)
            (λ m. has_room p.now.program self.old.frames m ≡ true)) }
        ensures err { OnErr result (self.new ≡ self.old) }
        ensures full { OnErr result (IfSome (slice_get p.now.program.methods method)
            (λ m. has_room p.now.program self.old.frames m ≡ false)) }
    {
        let number = self.number;
        match p.program().methods.get(method as usize) {
            Some(m) => self.frames.push_frame(method, m, number),
            None => unreachable!(),
        }
    }

    /// Drops the top frame.
    #[inline(always)]
    pub fn pop_frame(&mut self)
        requires { 0 < length self.old.frames }
        ensures { self.new ≡ record self.old { frames = below self.old.frames } }
    {
        self.frames.pop_frame();
    }

    /// Hands out the frames, where they are not out already. Until they are put back others stand
    /// in their place.
    pub fn take_frames(&mut self) -> Option<FrameStack>
        ensures frames { IfSome result
            (λ f. f ≡ record { program = self.old.program.program; frames = self.old.frames }) }
        ensures rest { self.new ≡ record self.old { frames = self.new.frames } }
        ensures none { result ≡ None → self.new ≡ self.old }
    {
        match self.spare.take() {
            Some(spare) => Some(replace(&mut self.frames, spare)),
            None => None,
        }
    }

    /// Puts frames in the place of those that are there.
    pub fn put_frames(&mut self, frames: FrameStack)
        requires { frames.program ≡ self.old.program.program }
        ensures { self.new ≡ record self.old { frames = frames.frames } }
    {
        self.spare = Some(replace(&mut self.frames, frames));
    }
}

// Its attempt.
impl ThreadState {
    /// The attempt without its copied frame.
    #[inline(always)]
    pub fn attempt(&self) -> Option<AttemptHead>
        ensures { result ≡ option_map head_of self.now.attempt }
    {
        match self.attempt {
            Some(e) => Some(e.attempt),
            None => None,
        }
    }

    /// Begins an attempt, and keeps a copy of the top frame.
    pub fn checkpoint(&mut self, monitor: u32, noted: u64, number: u8)
        requires { 0 < length self.old.frames }
        ensures { self.new
            ≡ record self.old {
              attempt =
                  Some (record {
                    monitor = monitor;
                    noted = noted;
                    base = length (below self.old.frames);
                    number = number;
                    inner = 0;
                    entry = top self.old.frames;
                  });
            } }
    {
        let base = self.frames.depth() as u32 - 1;
        let frame = self.frames.copy_top(&mut self.kept);
        self.attempt = Some(AttemptEntry {
            attempt: AttemptHead {
                monitor,
                noted,
                base,
                number,
                inner: 0,
            },
            frame,
        });
    }

    /// The same by the top one of frames that were handed out.
    #[inline(always)]
    pub fn checkpoint_of(&mut self, frames: &FrameStack, monitor: u32, noted: u64, number: u8)
        requires program { frames.now.program ≡ self.old.program.program }
        requires frame { 0 < length frames.now.frames }
        ensures { self.new
            ≡ record self.old {
              attempt =
                  Some (record {
                    monitor = monitor;
                    noted = noted;
                    base = length (below frames.now.frames);
                    number = number;
                    inner = 0;
                    entry = top frames.now.frames;
                  });
            } }
    {
        let base = frames.depth() as u32 - 1;
        let frame = frames.copy_top(&mut self.kept);
        self.attempt = Some(AttemptEntry {
            attempt: AttemptHead {
                monitor,
                noted,
                base,
                number,
                inner: 0,
            },
            frame,
        });
    }

    /// Puts the copy back in the place of the frame that entered the section, and drops those
    /// above. The attempt stays.
    pub fn restore(&mut self)
        requires some { IsSome self.old.attempt }
        requires based { IfSome self.old.attempt (IsBased self.old.frames) }
        ensures { self.new
            ≡ record self.old { frames = restored self.old.attempt self.old.frames } }
    {
        match self.attempt {
            Some(entry) => {
                self.frames.drop_to(entry.attempt.base as usize + 1);
                self.frames.put_top(entry.frame, &self.kept);
            }
            None => unreachable!(),
        }
    }

    /// How often the monitor was entered again inside the attempt, and not yet left.
    #[inline(always)]
    pub fn set_inner(&mut self, inner: u64)
        requires { IsSome self.old.attempt }
        ensures { self.new ≡ record self.old { attempt = with_inner inner self.old.attempt } }
    {
        if let Some(e) = self.attempt {
            self.attempt = Some(AttemptEntry {
                attempt: AttemptHead { inner, ..e.attempt },
                frame: e.frame,
            });
        }
    }

    pub fn end_attempt(&mut self)
        ensures { self.new ≡ record self.old { attempt = None } }
    {
        self.attempt = None;
    }
}
