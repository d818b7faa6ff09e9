//! What each instruction does (JVMS 6.5), and what it asks of the words that threads share.
#![tactic(auto)]

mod accesses;
mod before;
mod effects;
pub mod ints;
mod names;

pub use accesses::{is_checked, perform, read_by, wants};
pub use before::case_by_halves;
pub use effects::effect;
pub use ints::word_of;
pub use names::{kept, variable_of, with_method};
