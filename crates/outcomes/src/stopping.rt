//! The threads that have begun and not ended, where nothing moves.

ghost use Rattle.std.specs.Prelude.{◌≡◌, ◌<◌, ◌≤◌, ◌++◌, IfOk, OnOk, Some, length, slice_get};
ghost use Rattle.std.specs.Option.{option_map, option_to_list};
ghost use Rattle.machine_types.specs.PlainState.{PlainThread, holding_at};
ghost use Rattle.plain_threads.specs.Statuses.{plain_status_of};
ghost use Rattle.outcomes.specs.Stops.{asked_of, holder_of, top_method, top_pc, stop_of};
ghost use Rattle.outcomes.specs.Stops.{stopped_by, stopped_from};
ghost use Rattle.outcomes.specs.Stops.{stopped_thread as the_stopped_thread};
ghost use Rattle.outcomes.specs.Stops.{stopped_threads as the_stopped};

use history_rule::Plain;
use jvm_types::{Rows, Stack};
use plain_frames::Frame;
use plain_threads::{Holdings, Status, Thread, Threads};
use std::alloc::{AllocError, Global};

/// What keeps a thread from going on, with the monitor.
#[derive(Clone, Copy, PartialEq, Eq)]
pub enum Stop {
    /// It is in the wait set of a monitor.
    Waits(u64),
    /// It was woken, and is to take its monitor back.
    TakesBack(u64),
    /// It is to enter a monitor.
    Enters(u64),
    /// Neither: it stands before another step.
    Stands,
}

/// A thread that has begun and not ended: where its top frame stands, what keeps it, and the thread
/// that holds the monitor that it asks for.
#[derive(Clone, Copy, PartialEq, Eq)]
pub struct Stopped {
    pub thread: u8,
    pub method: u32,
    pub pc: u32,
    pub stop: Stop,
    pub holder: Option<u8>,
}

/// What keeps a thread by its status: `None` where it has not begun, or has ended.
fn stop_of(status: Status) -> Option<Stop>
    ensures { result ≡ stop_of (plain_status_of status) }
{
    match status {
        Status::Ready | Status::Ended(_) => None,
        Status::Waiting(m, _) => Some(Stop::Waits(m)),
        Status::Woken(m, _) => Some(Stop::TakesBack(m)),
        Status::Enter(m) => Some(Stop::Enters(m)),
        Status::Run
        | Status::Throw(_, _)
        | Status::Leave(_, _)
        | Status::Wait(_)
        | Status::Notify(_)
        | Status::NotifyAll(_) => Some(Stop::Stands),
    }
}

/// The thread that holds the monitor that is asked for.
fn holder_of(holdings: &Holdings, stop: Stop) -> Option<u8>
    ensures { result ≡ holder_of holdings.now (asked_of stop) }
{
    match stop {
        Stop::TakesBack(m) | Stop::Enters(m) => holder_at(holdings, m),
        Stop::Waits(_) | Stop::Stands => None,
    }
}

/// The thread that holds a monitor.
fn holder_at(holdings: &Holdings, m: u64) -> Option<u8>
    ensures { result ≡ option_map (λ h. h.holder) (holding_at holdings.now m) }
{
    match holdings.at(m) {
        Some(h) => Some(h.holder()),
        None => None,
    }
}

fn top_method(frames: &Stack<Frame>) -> u32
    ensures { result ≡ top_method frames.now }
{
    match frames.get(0) {
        Some(f) => f.method(),
        None => 0,
    }
}

fn top_pc(frames: &Stack<Frame>) -> u32
    ensures { result ≡ top_pc frames.now }
{
    match frames.get(0) {
        Some(f) => f.pc(),
        None => 0,
    }
}

/// A thread that something keeps.
fn stopped_by(holdings: &Holdings, t: u8, x: &Thread, stop: Stop) -> Stopped
    ensures { result ≡ stopped_by holdings.now t x.now stop }
{
    Stopped {
        thread: t,
        method: top_method(x.frames()),
        pc: top_pc(x.frames()),
        stop,
        holder: holder_of(holdings, stop),
    }
}

/// A thread, where it has begun and not ended.
fn stopped_at(holdings: &Holdings, t: u8, x: &Thread) -> Option<Stopped>
    ensures { result ≡ option_map (stopped_by holdings.now t x.now) (stop_of x.now.status) }
{
    match stop_of(x.status()) {
        Some(stop) => Some(stopped_by(holdings, t, x, stop)),
        None => None,
    }
}

/// Adds a thread, where it has begun and not ended.
fn add_stopped(rows: &mut Rows<Stopped>, stopped: Option<Stopped>) -> Result<(), AllocError>
    ensures { OnOk result (rows.new ≡ rows.old ++ option_to_list stopped) }
{
    match stopped {
        Some(row) => rows.push(row),
        None => Ok(()),
    }
}

/// Adds the thread of a number, where it has begun and not ended.
fn add_at(
    rows: &mut Rows<Stopped>,
    threads: &Threads,
    holdings: &Holdings,
    t: u8,
) -> Result<(), AllocError>
    requires { t < length threads.now }
    ensures { OnOk result ((x : PlainThread) → slice_get threads.now t ≡ Some x → rows.new
        ≡ rows.old
        ++ option_to_list (option_map (stopped_by holdings.now t x) (stop_of x.status))) }
{
    add_stopped(rows, stopped_at(holdings, t, threads.at(t)))
}

/// The threads that have begun and not ended, by the monitors that are held.
fn all_stopped(
    alloc: Global,
    threads: &Threads,
    holdings: &Holdings,
) -> Result<Rows<Stopped>, AllocError>
    requires { length threads.now ≤ 256 }
    ensures { IfOk result (λ rows. rows ≡ stopped_from holdings.now 0 threads.now) }
{
    let mut rows = Rows::new(alloc);
    for t in 0..threads.len() {
        add_at(&mut rows, threads, holdings, t as u8)?;
    }
    Ok(rows)
}

/// The threads that have begun and not ended, in the order of their numbers: where the state has no
/// step, those that wait for ever.
pub fn stopped_threads(alloc: Global, q: &Plain) -> Result<Rows<Stopped>, AllocError>
    requires { length q.now.state.threads ≤ 256 }
    ensures { IfOk result (λ rows. rows ≡ the_stopped q.now.state) }
{
    all_stopped(alloc, q.threads(), q.holdings())
}

/// The thread of a number, where it has begun and not ended. `None`: it has not, or there is no
/// such thread.
pub fn stopped_thread(q: &Plain, t: u8) -> Option<Stopped>
    ensures { result ≡ the_stopped_thread q.now.state t }
{
    match q.threads().get(t) {
        Some(x) => stopped_at(q.holdings(), t, x),
        None => None,
    }
}
