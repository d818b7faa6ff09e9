//! What the words of a command ask for: the options and names that `clap` finds in them, and then
//! the rules for the values. A program with options of its own makes its command and reads the
//! values of runs by the same calls.
#![tactic(auto)]

pub mod command;
pub mod found_words;
pub mod limits;
pub mod request;
pub mod run_values;
#[cfg(test)]
mod tests;
pub mod values;

pub use command::read_words;
pub use request::{Green, Memory, Mode, Request, Task};
