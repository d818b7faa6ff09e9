//! Runs of many Java threads on few threads of the system: each worker has hands with some of the
//! threads, and gives them turns of a number of events, one thread after the other.
//!
//! With one worker the run is made on a machine of `replay_runner`, and which events happen in
//! which order is known. With more of them the words are those of a table of `table_runner`, and
//! nothing is said of the order.
#![tactic(auto)]

mod green;
mod passing;
mod shares;
mod turns;

pub use green::run_green;
pub use passing::pass;
