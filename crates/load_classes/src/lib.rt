//! Classes that keep workers busy: the class of a load, made from a size and a number.
#![tactic(auto)]

mod constants;
mod factors;
pub mod limits;
pub mod loads;
mod methods;

pub use loads::{load_class, loads_are_classes};
