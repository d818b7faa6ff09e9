//! What an instruction does.

use plain_frames::{Frame, Onward};
use plain_threads::Status;

/// What an instruction does, planned before anything changes. The frame that it has goes into the
/// place of the top one.
#[derive(Debug, Drop)]
pub enum Deed {
    /// There is no step.
    Stuck,
    /// The thread goes on.
    Goes(Onward),
    /// A value is put at a place.
    Writes(u128, u64, Frame),
    /// A new object, by its header and its size, and the number for the next reference.
    Makes(u64, u32, u64, Frame),
    /// A new object does not fit; the number for the next reference rises, and the thread throws.
    Passes(u64),
    Prints(i32, Frame),
    /// What is left to do with a monitor that the thread holds.
    Asks(Status, Frame),
}
