//! Numbers by which equal states are found. Equal states have equal ones; no clause rests on them.

use history_rule::Plain;
use plain_frames::Frame;
use plain_memory::mixed;
use plain_threads::{Status, Thread};

/// The number of a status.
fn mixed_status(before: u64, status: Status) -> u64 {
    match status {
        Status::Ready => mixed(before, 0),
        Status::Run => mixed(before, 1),
        Status::Throw(object, _) => mixed(mixed(before, 2), object),
        Status::Enter(m) => mixed(mixed(before, 3), m),
        Status::Leave(m, _) => mixed(mixed(before, 4), m),
        Status::Wait(m) => mixed(mixed(before, 5), m),
        Status::Notify(m) => mixed(mixed(before, 6), m),
        Status::NotifyAll(m) => mixed(mixed(before, 7), m),
        Status::Waiting(m, depth) => mixed(mixed(mixed(before, 8), m), depth),
        Status::Woken(m, depth) => mixed(mixed(mixed(before, 9), m), depth),
        Status::Ended(_) => mixed(before, 10),
    }
}

/// The number of some values.
fn mixed_values(before: u64, values: &[u64]) -> u64 {
    let mut number = before;
    for value in values {
        number = mixed(number, *value);
    }
    number
}

/// The number of a frame.
fn mixed_frame(before: u64, f: &Frame) -> u64 {
    let head = mixed(mixed(before, f.method() as u64), f.pc() as u64);
    mixed_values(mixed_values(head, f.locals()), f.stack())
}

/// The number of a thread.
fn mixed_thread(before: u64, x: &Thread) -> u64 {
    let mut number = mixed_status(before, x.status());
    for f in x.frames().as_slice() {
        number = mixed_frame(number, f);
    }
    mixed(number, x.roots().len() as u64)
}

/// The number of a state.
pub(crate) fn number_of(q: &Plain) -> u64 {
    let threads = q.threads();
    let mut number = q.mixed_memory(q.prints().len() as u64);
    for t in 0..=255u8 {
        match threads.get(t) {
            Some(x) => number = mixed_thread(number, x),
            None => break,
        }
    }
    for printed in q.prints() {
        number = mixed(number, printed.value().cast_unsigned() as u64);
    }
    number
}
