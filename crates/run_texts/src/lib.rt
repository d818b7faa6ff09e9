//! Texts: the report of a run, the line of a refusal, that of a file that can't be read, the marks
//! of a program, the summary of a load, the order of a recorded run, and the report of a run of a
//! cell.
#![tactic(auto)]

pub mod cells;
pub mod loads;
pub mod marks;
pub mod orders;
pub mod refusals;
pub mod reports;
pub mod unread;

pub use cells::{CellCounts, cell_report};
pub use loads::summary;
pub use marks::{mark_text, write_class, write_mark_line, write_method};
pub use orders::recorded_report;
pub use refusals::{RefusalText, refusal, rule_name};
pub use reports::{EndText, name_of, report};
pub use unread::unread_file;
