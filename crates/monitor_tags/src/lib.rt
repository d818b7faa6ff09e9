//! Tags methods: finds which monitors each has entered at each instruction, and refuses one whose
//! locking is not structured (JVMS 2.11.10).
#![tactic(auto)]

mod after;
mod analysis;
mod error;
mod handlers;
mod meeting;
mod resting;
mod rules;
mod tag_stacks;
mod tagging;
mod visit;

pub use error::TagError;
pub use tagging::{tag, tag_within};
