//! All threads.

ghost use Rattle.std.specs.Prelude.{◌≡◌, ◌<◌, ◌+◌, drop, length, map, slice_get, slice_set, Some};
ghost use Rattle.std.specs.Prelude.{IfOk, OnOk, OnErr, OnSome, true};
ghost use Rattle.std.specs.List.{list_any, list_all, range_with_len};
ghost use Rattle.std.specs.Option.{option_copied};
ghost use Rattle.machine_types.specs.PlainState.{PlainThread, plain_goes_on, plain_start_thread};
ghost use Rattle.machine_types.specs.PlainState.{with_status};
ghost use Rattle.machine_types.specs.PlainSteps.{first_is_return, init_has_returned, is_done_due};
ghost use Rattle.machine_types.specs.PlainSteps.{is_due, is_over, waits_on, wakes};
ghost use Rattle.plain_frames.specs.Changes.{onward_of, root_begun};
ghost use Rattle.plain_threads.specs.Statuses.{plain_status_of};

use crate::status::Status;
use crate::thread::Thread;
use checked_program::Checked;
use jvm_types::{End, Stack};
use plain_frames::{Frame, Onward};
use std::alloc::{AllocError, Global};
use std::marker::Model;

/// The threads by their numbers. A call that answers an error has changed nothing.
#[derive(Debug, Drop)]
pub struct Threads {
    threads: Vec<Thread>,
}

impl Model for Threads {
    ghost use Rattle.std.specs.Prelude.{List};
    ghost use Rattle.machine_types.specs.PlainState.{PlainThread};

    ghost Value = { List PlainThread };

    ghost view = { λ s. s.threads.items };
}

/// Whether the first of some ends is a return.
fn first_is_return(ended: &[End]) -> bool
    ensures { result ≡ first_is_return ended.now }
{
    match ended {
        [End::Returned, ..] => true,
        _ => false,
    }
}

/// Whether a thread's part returned or was ended by an exception.
fn is_over(x: &Thread) -> bool
    ensures { result ≡ is_over x.now.status }
{
    match x.status() {
        Status::Ended(End::Returned | End::Uncaught(_)) => true,
        _ => false,
    }
}

fn init_has_returned(threads: &[Thread]) -> bool
    ensures { result ≡ init_has_returned threads.now }
{
    match threads {
        [first, ..] => first_is_return(first.ended()),
        [] => false,
    }
}

fn are_over(workers: &[Thread]) -> bool
    ensures { result ≡ list_all (λ w. is_over w.status) workers.now }
{
    workers.iter().all(|worker| is_over(worker))
}

/// Whether `done` is due: `init` has returned, and each worker has returned or was ended by an
/// exception.
fn is_done_due(threads: &[Thread]) -> bool
    ensures { result ≡ is_done_due threads.now }
{
    match threads {
        [_, workers @ ..] => init_has_returned(threads) && are_over(workers),
        [] => false,
    }
}

/// The same threads again.
fn copy_each(alloc: Global, threads: &[Thread]) -> Result<Vec<Thread>, AllocError>
    ensures { IfOk result (λ v. v.items ≡ threads.now) }
{
    let mut copies = Vec::with_capacity(alloc, threads.len())?;
    for x in threads {
        copies.push(x.copy(alloc)?)?;
    }
    Ok(copies)
}

/// `true`: the others are the same threads, in the same order.
fn are_same(a: &[Thread], b: &[Thread]) -> bool
    ensures { result ≡ true → a.now ≡ b.now }
{
    if a.len() != b.len() {
        return false;
    }
    for i in 0..a.len() {
        if !a[i].is_same(&b[i]) {
            return false;
        }
    }
    true
}

impl Threads {
    /// The threads at the start.
    pub fn start(alloc: Global, p: &Checked) -> Result<Threads, AllocError>
        ensures { IfOk result (λ s.
            s ≡ map (plain_start_thread p.now.program)
            (range_with_len 0 (p.now.program.workers + 1))) }
    {
        let count = p.workers() as usize + 1;
        let mut threads = Vec::with_capacity(alloc, count)?;
        for number in 0..count {
            threads.push(Thread::start(alloc, p, number as u8)?)?;
        }
        Ok(Threads { threads })
    }

    /// The threads, in the order of their numbers.
    pub fn as_slice(&self) -> &[Thread]
        ensures { result.now ≡ self.now }
    {
        self.threads.as_slice()
    }

    /// How many threads there are.
    pub fn len(&self) -> usize
        ensures { result ≡ length self.now }
    {
        self.threads.len()
    }

    pub fn get(&self, t: u8) -> Option<&Thread>
        ensures value { option_copied result ≡ slice_get self.now t }
        ensures within { OnSome result (t < length self.now) }
    {
        self.threads.get(t as usize)
    }

    /// A thread that is there.
    pub fn at(&self, t: u8) -> &Thread
        requires { t < length self.now }
        ensures { (x : PlainThread) → slice_get self.now t ≡ Some x → result.now ≡ x }
    {
        &self.threads[t as usize]
    }

    /// Whether `done` is due: `init` has returned, and each worker has returned or was ended by an
    /// exception.
    pub fn is_done_due(&self) -> bool
        ensures { result ≡ is_done_due self.now }
    {
        is_done_due(self.threads.as_slice())
    }

    /// Whether the next root of a thread may begin.
    pub fn is_due(&self, t: u8, ended: &[End]) -> bool
        ensures { result ≡ is_due self.now t ended.now }
    {
        let threads = self.threads.as_slice();
        if t == 0 && ended.is_empty() {
            true
        } else if t == 0 {
            is_done_due(threads)
        } else {
            init_has_returned(threads)
        }
    }

    pub fn set_status(&mut self, t: u8, status: Status)
        requires { t < length self.old }
        ensures { (x : PlainThread) → slice_get self.old t ≡ Some x
            → self.new ≡ slice_set self.old t (with_status x (plain_status_of status)) }
    {
        self.threads[t as usize].set_status(status);
    }

    /// Another frame takes the place of the top one of a thread, and the thread is about something
    /// else.
    pub fn goes_to(&mut self, t: u8, f: Frame, status: Status)
        requires { t < length self.old }
        ensures { (x : PlainThread) → slice_get self.old t ≡ Some x → self.new ≡ slice_set self.old
            t (record x
            { frames = slice_set x.frames 0 f; status = plain_status_of status }) }
    {
        self.threads[t as usize].goes_to(f, status);
    }

    /// A thread goes on.
    pub fn go_on(&mut self, alloc: Global, t: u8, onward: Onward) -> Result<(), AllocError>
        requires { t < length self.old }
        ensures ok { OnOk result ((x : PlainThread) → slice_get self.old t ≡ Some x
            → self.new ≡ slice_set self.old t (plain_goes_on x (onward_of x.frames onward))) }
        ensures err { OnErr result (self.new ≡ self.old) }
    {
        self.threads[t as usize].go_on(alloc, onward)
    }

    /// A root of a thread begins.
    pub fn begin(
        &mut self,
        alloc: Global,
        t: u8,
        entry: Option<Frame>,
        roots: Stack<u32>,
    ) -> Result<(), AllocError>
        requires { t < length self.old }
        ensures ok { OnOk result ((x : PlainThread) → slice_get self.old t ≡ Some x → self.new ≡
            slice_set self.old t
            (plain_goes_on (record x { roots = roots }) (root_begun entry))) }
        ensures err { OnErr result (self.new ≡ self.old) }
    {
        self.threads[t as usize].begin(alloc, entry, roots)
    }

    /// Whether a thread is in the wait set of a monitor.
    pub fn any_waits(&self, m: u64) -> bool
        ensures { result ≡ list_any (λ x. waits_on m x.status) self.now }
    {
        self.threads.iter().any(|x| x.waits_on(m))
    }

    /// Wakes a thread that is in the wait set of a monitor.
    pub fn wake(&mut self, u: u8, m: u64)
        requires { u < length self.old }
        ensures { (x : PlainThread) → slice_get self.old u ≡ Some x
            → self.new ≡ slice_set self.old u (wakes m x) }
    {
        self.threads[u as usize].wake(m);
    }

    /// Wakes each thread that is in the wait set of a monitor.
    pub fn wake_all(&mut self, m: u64)
        ensures { self.new ≡ map (wakes m) self.old }
    {
        wake_each(&mut self.threads, m);
    }

    /// The same threads again.
    pub fn copy(&self, alloc: Global) -> Result<Threads, AllocError>
        ensures { IfOk result (λ s. s ≡ self.now) }
    {
        Ok(Threads {
            threads: copy_each(alloc, self.threads.as_slice())?,
        })
    }

    /// `true`: the others are the same threads.
    pub fn is_same(&self, other: &Threads) -> bool
        ensures { result ≡ true → self.now ≡ other.now }
    {
        are_same(self.threads.as_slice(), other.threads.as_slice())
    }
}

fn wake_each(threads: &mut Vec<Thread>, m: u64)
    ensures { threads.new.items ≡ map (wakes m) threads.old.items }
{
    for i in 0..threads.len() {
        threads[i].wake(m);
    }
}
