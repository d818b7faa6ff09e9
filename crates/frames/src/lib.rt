//! The state of a thread, in memory that is taken at its start, and how it goes on within the
//! limits of its run.
#![tactic(auto)]

mod arguments;
mod attempt_entry;
mod counts;
mod frame_stack;
mod head;
mod held;
mod laying;
mod phases;
mod roots;
mod thread_state;

pub use counts::{count_elided, count_failed, count_inflated, count_instruction, count_locked};
pub use frame_stack::{FrameStack, RunningFrames};
pub use head::StackOverflow;
pub use phases::{fail_turn, runs};
pub use thread_state::ThreadState;
