//! How a thread goes on.

ghost use Rattle.std.specs.Prelude.{◌≡◌};
ghost use Rattle.machine_types.specs.Frames.{frames_of};
ghost use Rattle.machine_types.specs.Onward.{threw};
ghost use Rattle.plain_frames.specs.Changes.{onward_of};

use crate::at::At;
use crate::frame::Frame;
use heap_words::ready;
use jvm_types::Thrown;

/// What becomes of the frames of a thread.
#[derive(Debug, Drop)]
pub enum Change {
    Same,
    /// Another frame takes the place of the top one.
    Top(Frame),
    /// The first takes the place of the top frame, and the second is put on top of it.
    Call(Frame, Frame),
    /// The top frame is gone.
    Below,
    /// The top frame is gone, and another one takes the place of that below it.
    Back(Frame),
}

/// What a thread does when it has left a monitor.
#[derive(Clone, Copy, Debug, PartialEq, Eq)]
pub enum Then {
    /// The next instruction.
    Next,
    /// The return that its top frame stands at.
    Return,
    /// The top frame ends by this exception: the object, and its class.
    Unwind(u64, Thrown),
}

/// How a thread goes on when an instruction, a call, a return or an exception has done its work.
#[derive(Debug, Drop)]
pub enum Onward {
    Running(Change),
    /// By throwing an object of a class.
    Throwing(u64, Thrown, Change),
    /// By entering a monitor.
    Entering(u64, Change),
    /// By leaving a monitor.
    Leaving(u64, Then, Change),
    RootReturned,
    /// No frame has caught an exception.
    Uncaught(Thrown),
}

/// It throws an exception that the machine makes.
pub fn threw(x: Thrown, at: &At) -> Onward
    ensures { onward_of (frames_of at.now) result ≡ threw x at.now }
{
    let _ = at;
    Onward::Throwing(ready(x) as u64, x, Change::Same)
}
