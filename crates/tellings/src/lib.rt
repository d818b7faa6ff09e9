//! What is told, fact by fact, and the two forms of it: a line of text, and an object of JSON.
#![tactic(auto)]

pub mod facts;
pub mod forms;
pub mod keys;

pub use facts::{Fact, add_count, add_text, add_text_if};
pub use forms::{write_facts, write_members, write_told};
pub use keys::{Key, Row};
