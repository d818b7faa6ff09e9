//! Laws of objects under construction, and of the fields and elements that sections read without
//! their lock; each the contract of a function that does nothing.
#![tactic(auto)]

pub mod event_laws;
pub mod object_laws;
pub mod unfinished_laws;

pub use event_laws::events_keep_guards;
pub use object_laws::{events_keep_construction, next_keeps_construction, start_has_construction};
pub use unfinished_laws::{finished_by_own_return, thrown_inits_leave_no_use};
