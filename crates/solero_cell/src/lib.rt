//! A cell of 1 to 64 words for Rust callers: a sequence lock by the lock word of SOLERO (PLDI
//! 2010), whose reads are proved to be whole.
//!
//! A read loads the lock word, the values and the lock word again, and has the values of one count
//! where that word is the same and free. A write takes the lock word by an exchange, stores the
//! values, and lets it go with one count more. All steps are atomic and sequentially consistent,
//! and each is one step on one word; nobody waits.
#![tactic(auto)]

mod answers;
mod ending;
mod laws;
mod read;
mod rule;
mod seat;
mod steps;
mod views;
mod write;

pub use answers::{CellRead, CellWrite};
pub use ending::CellEnd;
pub use laws::added_looks_are_true;
pub use read::copy_values;
pub use rule::{
    Attempt, CellRule, CellTable, Compares, Cuts, First, Joins, Last, Loads, Notes, Stores, Takes,
    Writing,
};
pub use seat::{CellSeat, MOST_VALUES, cell};
pub use views::{Look, Moment, Record, Share, Storing, View};

#[cfg(test)]
mod tests;
