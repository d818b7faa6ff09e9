//! Loads the files of a program.
#![tactic(auto)]

mod budget;
mod decoding;
mod linking;
pub mod loading;
pub mod loading_laws;
mod reading;
mod reckoning;
mod tagging;
mod verifying;

pub use linking::link_files;
pub use loading::{FileError, load_program};
pub use loading_laws::{
    accepted_is_not_refused, accepted_or_refused, loaded_is_accepted, one_loading, one_refusal,
};
pub use reading::read_files;
pub use run_texts::{mark_text, recorded_report, refusal, report, summary, unread_file};
pub use tagging::tag_files;
pub use verifying::verify_files;
