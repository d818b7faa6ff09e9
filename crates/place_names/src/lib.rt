//! Names of places of a program, as facts: methods with their classes, and instructions by their
//! mnemonics.
#![tactic(auto)]

pub mod facts;
pub mod names;
pub mod sections;

pub use facts::{add_method, add_pc, add_place, add_source, op_name};
pub use names::Names;
pub use sections::{add_mark, add_section_spot, mark_name};
