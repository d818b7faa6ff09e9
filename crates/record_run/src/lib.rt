//! A run on threads of the system that keeps the order of its workers' events, so that a replay
//! makes the same run again.
#![tactic(auto)]

mod kept;
mod laws;
mod recording;

pub use laws::recorded_orders_replay;
pub use recording::{MOST_EVENTS, Recorded, run_recorded};
pub use replay_runner::replay;
