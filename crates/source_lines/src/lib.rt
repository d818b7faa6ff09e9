//! The sources that the instructions of a program come from: files and lines.
#![tactic(auto)]

pub mod line_starts;
mod line_tables;
mod sources;

pub use line_starts::{LineStart, first_index, line_start, source_name};
pub use sources::{MethodLines, Sources, sources_are_in_order, sources_of};
