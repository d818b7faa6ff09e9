//! The rule of plain steps: the machine with ordinary monitors, one step of which a caller chooses
//! at a time (JVMS 2.11.10; JLS 17.1, 17.2).
#![tactic(auto)]

mod begin;
mod deed;
mod doing;
mod history;
mod monitors;
mod plain;
mod plain_state;
mod planning;
mod printed;
mod step;

pub use plain::{MOST_STEPS, Plain, plain_start, plain_step, steps_are_stated};
pub use printed::Printed;
