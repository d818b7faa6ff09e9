//! A run of workers that write and read one cell of `solero_cell`, each on a thread of its own.
//!
//! It stands above the cell, since it starts threads and has a gate, which a caller of the cell
//! needs neither of.
#![tactic(auto)]

mod hands;
mod report;
mod running;
mod tally;
mod workers;

pub use report::CellReport;
pub use running::{MOST_ROUNDS, run_cell};
