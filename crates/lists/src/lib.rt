//! Lists: plain ones, stacks, and lists whose memory was taken before; and values that only
//! contracts see.
#![tactic(auto)]

pub mod room;
pub mod rows;
pub mod stack;
pub mod told;

pub use room::Room;
pub use rows::{Bytes, Rows};
pub use stack::Stack;
pub use told::Told;
