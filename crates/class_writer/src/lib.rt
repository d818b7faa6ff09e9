//! Writes class files (JVMS 4), and builds constant pools.
#![tactic(auto)]

pub mod builder;
pub mod error;
pub mod laws;
mod list_writing;
mod numbers;
mod parts;
mod pool_rules;
mod rules;
pub mod writer;

pub use builder::{Builder, new_builder};
pub use error::{BuildError, WriteError};
pub use laws::{reads_what_was_written, writes_what_was_read};
pub use writer::write_class;
