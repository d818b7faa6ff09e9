//! Runs on threads that share the words of a table, without a lock. Every event is one step on one
//! word, or changes its thread alone; after each of them the table and the threads are a state that
//! a run reaches.
//!
//! Which run it is, nobody keeps. What no clause says: in what order the threads go, that a thread
//! gets on while others hold what it waits for, and anything of memory that is not sequentially
//! consistent.
#![tactic(auto)]

mod access;
mod closing;
mod events;
mod going_on;
mod hands;
mod opening;
mod parts;
mod rule;
mod running;
mod sectioning;
mod sharing;
mod stepping;
mod touching;
mod workers;

pub use hands::Hands;
pub use opening::table;
pub use rule::{About, CoreRule};
pub use running::{end_run, run_init, run_rest, run_table};
pub use stepping::CoreTable;
