//! What a thread is about.

use jvm_types::{End, Thrown};
use plain_frames::Then;

/// What a thread of the plain machine does next. The first number is the monitor, but of `Throw`,
/// where it is the object.
#[derive(Clone, Copy, Debug, PartialEq, Eq)]
pub enum Status {
    /// Its next root may begin, when its part is due.
    Ready,
    /// It makes an instruction.
    Run,
    /// It throws an object of this class.
    Throw(u64, Thrown),
    Enter(u64),
    /// It leaves a monitor, and then goes on.
    Leave(u64, Then),
    Wait(u64),
    Notify(u64),
    NotifyAll(u64),
    /// In the wait set of a monitor, with the depth at which it held that.
    Waiting(u64, u64),
    /// Out of the wait set again.
    Woken(u64, u64),
    Ended(End),
}
