//! The trace of a run in a chosen order of steps: a line for each of its events, or an object of
//! JSON, written as it goes, and then the report.
#![tactic(auto)]

pub mod events;
pub mod report_json;
pub mod stands;
pub mod traces;
pub mod turns;

pub use events::Part;
pub use json_lines::Form;
pub use traces::{TraceError, explain_run};
