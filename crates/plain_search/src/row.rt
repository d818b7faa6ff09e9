//! The rows of a search.

use history_rule::Plain;
use machine_types::PlainStep;

/// A machine, and how it was come to.
#[derive(Drop)]
pub struct Row {
    pub plain: Plain,
    /// The row from which a step was made.
    pub from: u32,
    pub step: PlainStep,
    /// How many local steps of the same thread were made behind it.
    pub locals: u32,
}

/// What is found, while the search goes on.
#[derive(Drop)]
pub struct Gathered {
    pub rows: Vec<Row>,
    /// The rows without a step, by their numbers.
    pub rests: Vec<u32>,
    /// The rows by numbers of their states: 0, or in the lower half one more than the number of a
    /// row, and in the upper half that of its state's number.
    pub table: Vec<u64>,
}
