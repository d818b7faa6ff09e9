//! The numbers of classes by their names, and the types that descriptors name (JVMS 4.2, 4.3).
#![tactic(auto)]

pub mod class_numbers;
mod name_table;
pub mod reading;

pub use class_numbers::ClassNumbers;
pub use reading::{Signature, field_kind, method_signature};
