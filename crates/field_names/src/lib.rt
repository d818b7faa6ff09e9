//! The names of the fields of a program.
#![tactic(auto)]

mod names;

pub use names::{field_names, names_are_in_order};
