//! Reads class files.
#![tactic(auto)]

mod attributes;
mod indices;
mod items;
mod list_reading;
mod members;
mod pool_checks;
mod pool_entries;
mod read_error;
mod reading;

pub use read_error::ReadError;
pub use reading::read_class;
