//! Whether a thread of the running machine stands where one of the plain machine does. No clause
//! says so: an order that is found by it is replayed.

use frames::ThreadState;
use machine_types::{Phase, Toward};
use plain_frames::Frame;
use plain_threads::{Status, Thread};

/// Whether a thread is about to enter a monitor.
fn is_entering(phase: Phase) -> bool {
    match phase {
        Phase::Enter(_, _)
        | Phase::Acquire(_)
        | Phase::Take(_, _)
        | Phase::Flag(_, _)
        | Phase::TakeFat(_, _) => true,
        _ => false,
    }
}

/// Whether a thread is about to leave a monitor.
fn is_leaving(phase: Phase) -> bool {
    match phase {
        Phase::Leave(_, _)
        | Phase::Grow(_, Toward::Leave(_))
        | Phase::FlatOut(_, _)
        | Phase::Own(_, _, Toward::Leave(_))
        | Phase::FatIn(_, _, Toward::Leave(_)) => true,
        _ => false,
    }
}

/// Whether a thread is about to wait.
fn is_to_wait(phase: Phase) -> bool {
    match phase {
        Phase::Grow(_, Toward::Wait)
        | Phase::Own(_, _, Toward::Wait)
        | Phase::FatIn(_, _, Toward::Wait)
        | Phase::WaitBit(_, _)
        | Phase::WaitOut(_, _) => true,
        _ => false,
    }
}

/// Whether a thread in a phase is about what a status says.
fn fits_status(phase: Phase, status: Status) -> bool {
    match status {
        Status::Ready => matches!(phase, Phase::Idle | Phase::Start),
        Status::Run => matches!(phase, Phase::Run),
        Status::Throw(_, _) => matches!(phase, Phase::Throw(_, _)),
        Status::Enter(_) => is_entering(phase),
        Status::Leave(_, _) => is_leaving(phase),
        Status::Wait(_) => is_to_wait(phase),
        Status::Notify(_) | Status::NotifyAll(_) => true,
        Status::Waiting(_, _) => matches!(phase, Phase::WaitLook(_, _, _)),
        Status::Woken(_, _) => matches!(phase, Phase::WaitLook(_, _, _) | Phase::Retake(_, _, _)),
        Status::Ended(_) => matches!(phase, Phase::Ended(_)),
    }
}

/// Whether the top frame of a thread is a frame of the plain machine.
fn fits_top(s: &ThreadState, f: &Frame) -> bool {
    s.depth() > 0
        && s.method() == f.method()
        && s.pc() == f.pc()
        && s.stack() == f.stack()
        && s.locals() == f.locals()
}

/// Whether a thread has as many frames as one of the plain machine, and the same top frame.
fn fits_frames(s: &ThreadState, x: &Thread) -> bool {
    if s.depth() as usize != x.frames().len() {
        return false;
    }
    match x.frames().get(0) {
        Some(f) => fits_top(s, f),
        None => true,
    }
}

/// Whether a thread of the plain machine is about to notify.
fn is_to_notify(status: Status) -> bool {
    matches!(status, Status::Notify(_) | Status::NotifyAll(_))
}

/// Whether a thread of the running machine stands where one of the plain machine does. One in an
/// attempt stands in its section, as one that has the lock. One that is to notify stands anywhere:
/// where nobody has waited yet, it makes one event of it, and no other thread comes in between,
/// since it holds the monitor.
pub(crate) fn fits(s: &ThreadState, x: &Thread) -> bool {
    is_to_notify(x.status()) || (fits_status(s.phase(), x.status()) && fits_frames(s, x))
}
