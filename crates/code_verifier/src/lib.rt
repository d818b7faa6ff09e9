//! Verifies methods by inferred types (JVMS 4.10.2).
#![tactic(auto)]

mod after;
mod analysis;
mod entry;
mod error;
mod frames;
mod handlers;
mod meeting;
mod operands;
mod resting;
mod rules;
mod type_lists;
mod verifying;
mod visit;

pub use code_visits::{Budget, MOST_KEPT};
pub use error::VerifyError;
pub use verifying::{verify, verify_within};
