//! A cell of 1 to 64 words whose readers nobody holds up: a sequence latch, as Linux has it
//! (`seqcount_latch`), beside the sequence lock of `solero_cell`, with its seats, its history and
//! its shares.
//!
//! The cell has two copies of the values, and the count of the last write that is done. A write
//! takes the lock word by an exchange, stores the values into the copy of the next count, stores
//! that count, and lets the lock go. A read loads the count, the values of its copy, and the count
//! again, and has the values of one count where it is the same. So a write that is stopped holds
//! up no read: it fails only where a whole write ended within it.
#![tactic(auto)]

mod answers;
mod laws;
mod read;
mod rule;
mod seat;
mod steps;
mod write;

pub use answers::LatchRead;
pub use laws::added_latch_looks_are_true;
pub use rule::{LatchRule, LatchTable};
pub use seat::{LatchSeat, latch};

#[cfg(test)]
mod tests;
