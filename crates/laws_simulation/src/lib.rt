//! Each event of a thread that is in no attempt is a run of the plain machine, and the outcome of a
//! run says of it what it is: laws, each the contract of a function that does nothing.
#![tactic(auto)]

pub mod count_laws;
pub mod end_laws;
pub mod frame_laws;
pub mod memory_laws;
pub mod monitor_laws;
pub mod print_laws;
pub mod start_laws;
pub mod wait_laws;

pub use count_laws::{counts_append, events_are_counted, others_are_not_counted};
pub use end_laws::{ends_are_those, events_keep_none, next_keeps_none, start_keeps_none};
pub use frame_laws::frame_steps;
pub use memory_laws::{memory_steps, onward_steps};
pub use monitor_laws::lock_steps;
pub use print_laws::{next_keeps_prints, prints_are_kept, start_has_prints};
pub use start_laws::{next_stands_beside, start_stands_beside};
pub use wait_laws::{wait_phase_steps, waiting_steps};
