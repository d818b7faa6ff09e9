//! The code table in Rust: the row of each instruction, where it goes on, which class is below
//! which, and the number of the instruction at each pc. Verifying, tagging, marking and running go
//! over it.
#![tactic(auto)]

mod class_tree;
mod constant_rows;
mod indexed_method;
mod number_laws;
mod op_rows;
mod pc_table;
mod row_forms;
mod row_moves;
mod type_order;
mod ways;

pub use class_tree::{common_ancestor, is_subclass};
pub use constant_rows::{is_init, type_of};
pub use indexed_method::IndexedMethod;
pub use number_laws::numbers_are_exact;
pub use op_rows::{form, row, takes};
pub use pc_table::PcTable;
pub use row_forms::{RowForm, Takes};
pub use row_moves::{Making, Types, stack_after, value_of, write_local};
pub use type_order::{is_below, is_new, is_uninitialised, meet, same_type};
pub use ways::{branches_to, can_throw, edges, falls_through, goes_back};
