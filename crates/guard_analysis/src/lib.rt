//! Marks of synchronized sections: which of them may run without their lock.
#![tactic(auto)]

pub mod array_faults;
mod array_uses;
mod block_reach;
pub mod block_walk;
pub mod call_graph;
mod callees;
pub mod calls;
mod colouring;
pub mod faults;
pub mod field_uses;
pub mod marking;
mod owned_arrays;
pub mod readable;
mod row_work;
mod tag_reading;

pub use callees::flag_at;
pub use marking::{mark, mark_by_uses};
