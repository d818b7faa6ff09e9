//! One thread.

ghost use Rattle.std.specs.Prelude.{◌≡◌, [], ◌∷◌, ◌++◌, drop, slice_set, slice_get, IfOk, OnOk};
ghost use Rattle.std.specs.Prelude.{OnErr, true};
ghost use Rattle.machine_types.specs.PlainState.{Run, Throw, first_thread, plain_goes_on, over};
ghost use Rattle.machine_types.specs.PlainState.{ready_thread, plain_root_over, plain_start_thread};
ghost use Rattle.machine_types.specs.PlainSteps.{waits_on, wakes};
ghost use Rattle.plain_frames.specs.Changes.{changed, onward_of, root_begun};
ghost use Rattle.plain_threads.specs.Statuses.{plain_status_of};

use crate::roots::{init_roots, run_roots};
use crate::status::Status;
use checked_program::Checked;
use jvm_types::{End, Rows, Stack, Thrown};
use plain_frames::{Change, Frame, Onward};
use std::alloc::{AllocError, Global};
use std::marker::Model;

/// A thread of the plain machine. A call that answers an error has changed nothing.
#[derive(Debug, Drop)]
pub struct Thread {
    frames: Stack<Frame>,
    status: Status,
    roots: Stack<u32>,
    ended: Rows<End>,
}

impl Model for Thread {
    ghost use Rattle.machine_types.specs.PlainState.{PlainThread};
    ghost use Rattle.plain_threads.specs.Statuses.{plain_status_of};

    ghost Value = { PlainThread };

    ghost view = { λ x.
        record {
          frames = x.frames;
          status = plain_status_of x.status;
          roots = x.roots;
          ended = x.ended;
        } };
}

/// The same frames again, from the same end on.
fn copy_frames(alloc: Global, frames: &[Frame]) -> Result<Rows<Frame>, AllocError>
    ensures { IfOk result (λ v. v ≡ frames.now) }
{
    let mut copies = Rows::from_vec(Vec::with_capacity(alloc, frames.len())?);
    for f in frames {
        copies.push(f.copy(alloc)?)?;
    }
    Ok(copies)
}

/// `true`: the others are the same frames, in the same order.
fn are_same_frames(a: &[Frame], b: &[Frame]) -> bool
    ensures { result ≡ true → a.now ≡ b.now }
{
    if a.len() != b.len() {
        return false;
    }
    for i in 0..a.len() {
        if !a[i].is_same(&b[i]) {
            return false;
        }
    }
    true
}

/// The same frames again.
fn copy_stack(alloc: Global, frames: &Stack<Frame>) -> Result<Stack<Frame>, AllocError>
    ensures { IfOk result (λ s. s ≡ frames.now) }
{
    let mut copies = copy_frames(alloc, frames.as_slice())?;
    copies.reverse();
    Ok(Stack::first_on_top(copies))
}

/// `true`: the others are the same frames.
fn is_same_stack(a: &Stack<Frame>, b: &Stack<Frame>) -> bool
    ensures { result ≡ true → a.now ≡ b.now }
{
    are_same_frames(a.as_slice(), b.as_slice())
}

/// `true`: it is the same status.
fn is_same_status(a: Status, b: Status) -> bool
    ensures { result ≡ true → a ≡ b }
{
    a == b
}

/// `true`: it is the same end.
fn is_same_end(a: End, b: End) -> bool
    ensures { result ≡ true → a ≡ b }
{
    a == b
}

/// `true`: the others are the same ends, in the same order.
fn are_same_ends(a: &[End], b: &[End]) -> bool
    ensures { result ≡ true → a.now ≡ b.now }
{
    if a.len() != b.len() {
        return false;
    }
    for i in 0..a.len() {
        if !is_same_end(a[i], b[i]) {
            return false;
        }
    }
    true
}

/// `true`: the others are the same roots.
fn are_same_roots(a: &Stack<u32>, b: &Stack<u32>) -> bool
    ensures { result ≡ true → a.now ≡ b.now }
{
    a.as_slice() == b.as_slice()
}

impl Thread {
    /// A thread whose part has not begun.
    fn ready(alloc: Global, roots: Stack<u32>) -> Thread
        ensures { result ≡ ready_thread roots }
    {
        Thread {
            frames: Stack::new(alloc),
            status: Status::Ready,
            roots,
            ended: Rows::new(alloc),
        }
    }

    /// A thread whose part has returned, since it has no root.
    fn returned(alloc: Global) -> Result<Thread, AllocError>
        ensures { IfOk result (λ x. x ≡ first_thread []) }
    {
        let mut ended = Rows::new(alloc);
        ended.push(End::Returned)?;
        Ok(Thread {
            frames: Stack::new(alloc),
            status: Status::Ended(End::Returned),
            roots: Stack::new(alloc),
            ended,
        })
    }

    /// Thread 0 at the start.
    fn first(alloc: Global, p: &Checked) -> Result<Thread, AllocError>
        ensures { IfOk result (λ x. x ≡ plain_start_thread p.now.program 0) }
    {
        let roots = init_roots(alloc, p)?;
        if roots.len() == 0 {
            Thread::returned(alloc)
        } else {
            Ok(Thread::ready(alloc, roots))
        }
    }

    /// A thread at the start.
    pub fn start(alloc: Global, p: &Checked, t: u8) -> Result<Thread, AllocError>
        ensures { IfOk result (λ x. x ≡ plain_start_thread p.now.program t) }
    {
        if t == 0 {
            Thread::first(alloc, p)
        } else {
            Ok(Thread::ready(alloc, run_roots(alloc, p)?))
        }
    }

    pub fn status(&self) -> Status
        ensures { plain_status_of result ≡ self.now.status }
    {
        self.status
    }

    pub fn frames(&self) -> &Stack<Frame>
        ensures { result.now ≡ self.now.frames }
    {
        &self.frames
    }

    /// The ends of its parts so far.
    pub fn ended(&self) -> &[End]
        ensures { result.now ≡ self.now.ended }
    {
        self.ended.as_slice()
    }

    /// The methods that its part has still to run.
    pub fn roots(&self) -> &Stack<u32>
        ensures { result.now ≡ self.now.roots }
    {
        &self.roots
    }

    pub fn set_status(&mut self, status: Status)
        ensures { self.new ≡ record self.old { status = plain_status_of status } }
    {
        self.status = status;
    }

    /// Another frame takes the place of the top one, and the thread is about something else.
    pub fn goes_to(&mut self, f: Frame, status: Status)
        ensures { self.new ≡ record self.old
            { frames = slice_set self.old.frames 0 f; status = plain_status_of status } }
    {
        if self.frames.len() > 0 {
            self.frames.set(0, f);
        }
        self.status = status;
    }

    /// A frame and one on top of it take the place of the top one.
    fn call(&mut self, caller: Frame, f: Frame) -> Result<(), AllocError>
        ensures ok { OnOk result
            (self.new ≡ record self.old { frames = f ∷ slice_set self.old.frames 0 caller }) }
        ensures err { OnErr result (self.new ≡ self.old) }
    {
        let height = self.frames.len();
        self.frames.push(f)?;
        if height > 0 {
            self.frames.set(1, caller);
        }
        Ok(())
    }

    /// Changes the frames.
    fn change(&mut self, change: Change) -> Result<(), AllocError>
        ensures ok { OnOk result
            (self.new ≡ record self.old { frames = changed change self.old.frames }) }
        ensures err { OnErr result (self.new ≡ self.old) }
    {
        match change {
            Change::Same => (),
            Change::Top(f) => {
                if self.frames.len() > 0 {
                    self.frames.set(0, f);
                }
            }
            Change::Call(caller, f) => self.call(caller, f)?,
            Change::Below => self.frames.drop_top(1),
            Change::Back(f) => {
                self.frames.drop_top(1);
                if self.frames.len() > 0 {
                    self.frames.set(0, f);
                }
            }
        }
        Ok(())
    }

    /// Its part has ended.
    fn over(&mut self, alloc: Global, end: End) -> Result<(), AllocError>
        ensures ok { OnOk result (self.new ≡ over self.old end) }
        ensures err { OnErr result (self.new ≡ self.old) }
    {
        self.ended.push(end)?;
        self.frames = Stack::new(alloc);
        self.status = Status::Ended(end);
        Ok(())
    }

    /// Its root has returned.
    fn root_over(&mut self, alloc: Global) -> Result<(), AllocError>
        ensures ok { OnOk result (self.new ≡ plain_root_over self.old self.old.roots) }
        ensures err { OnErr result (self.new ≡ self.old) }
    {
        if self.roots.len() == 0 {
            self.over(alloc, End::Returned)?;
        } else {
            self.frames = Stack::new(alloc);
            self.status = Status::Ready;
        }
        Ok(())
    }

    /// Changes the frames and the status.
    fn turn(&mut self, change: Change, status: Status) -> Result<(), AllocError>
        ensures ok { OnOk result (self.new ≡ record self.old
            { frames = changed change self.old.frames; status = plain_status_of status }) }
        ensures err { OnErr result (self.new ≡ self.old) }
    {
        self.change(change)?;
        self.status = status;
        Ok(())
    }

    /// The thread goes on.
    pub fn go_on(&mut self, alloc: Global, onward: Onward) -> Result<(), AllocError>
        ensures ok { OnOk result
            (self.new ≡ plain_goes_on self.old (onward_of self.old.frames onward)) }
        ensures err { OnErr result (self.new ≡ self.old) }
    {
        match onward {
            Onward::Running(change) => self.turn(change, Status::Run),
            Onward::Throwing(x, class, change) => self.turn(change, Status::Throw(x, class)),
            Onward::Entering(m, change) => self.turn(change, Status::Enter(m)),
            Onward::Leaving(m, then, change) => self.turn(change, Status::Leave(m, then)),
            Onward::RootReturned => self.root_over(alloc),
            Onward::Uncaught(class) => self.over(alloc, End::Uncaught(class)),
        }
    }

    /// A root begins in its frame, where that has room; others are left to run.
    pub fn begin(
        &mut self,
        alloc: Global,
        entry: Option<Frame>,
        roots: Stack<u32>,
    ) -> Result<(), AllocError>
        ensures ok { OnOk result
            (self.new ≡ plain_goes_on (record self.old { roots = roots }) (root_begun entry)) }
        ensures err { OnErr result (self.new ≡ self.old) }
    {
        match entry {
            Some(f) => {
                let mut frames = Stack::new(alloc);
                frames.push(f)?;
                self.frames = frames;
                self.status = Status::Run;
            }
            None => self.over(alloc, End::Uncaught(Thrown::StackOverflowError))?,
        }
        self.roots = roots;
        Ok(())
    }

    /// Whether it is in the wait set of a monitor.
    pub fn waits_on(&self, m: u64) -> bool
        ensures { result ≡ waits_on m self.now.status }
    {
        match self.status {
            Status::Waiting(n, _) => n == m,
            _ => false,
        }
    }

    /// It is woken, where it is in the wait set of the monitor.
    pub fn wake(&mut self, m: u64)
        ensures { self.new ≡ wakes m self.old }
    {
        match self.status {
            Status::Waiting(n, depth) if n == m => self.status = Status::Woken(n, depth),
            _ => (),
        }
    }

    /// The same thread again.
    pub fn copy(&self, alloc: Global) -> Result<Thread, AllocError>
        ensures { IfOk result (λ x. x ≡ self.now) }
    {
        Ok(Thread {
            frames: copy_stack(alloc, &self.frames)?,
            status: self.status,
            roots: self.roots.copy(alloc)?,
            ended: Rows::from_slice(alloc, self.ended.as_slice())?,
        })
    }

    /// `true`: the other thread is the same.
    pub fn is_same(&self, other: &Thread) -> bool
        ensures { result ≡ true → self.now ≡ other.now }
    {
        is_same_status(self.status, other.status)
            && is_same_stack(&self.frames, &other.frames)
            && are_same_roots(&self.roots, &other.roots)
            && are_same_ends(self.ended(), other.ended())
    }
}
