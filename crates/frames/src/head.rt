//! What stands beside the slots of frames.

use jvm_types::limits::MOST_SLOTS;

/// The slots of one thread, for the stacks and the locals of its frames.
pub const SLOTS: usize = MOST_SLOTS as usize;

/// What is known of a frame beside the values in its slots.
#[derive(Clone, Copy)]
pub struct Head {
    pub method: u32,
    pub pc: u32,
    pub receiver: u64,
    /// The places of its stack that hold no value.
    pub gap: usize,
    /// The places of its stack.
    pub room: usize,
    /// Its slots: those places, and its locals.
    pub size: usize,
}

/// There is no room for a further frame.
#[derive(Clone, Copy, Debug, PartialEq, Eq)]
pub struct StackOverflow;
