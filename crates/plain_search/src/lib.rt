//! The search over the states of the plain machine: all that its steps lead to, in any order, up to
//! local steps.
#![tactic(auto)]

mod acts;
mod found;
mod local;
mod nexts;
mod numbers;
mod row;
mod rows;
mod searching;
mod settling;
mod watching;

pub use found::Found;
pub use searching::{MOST_STATES, search, watched_search};
pub use watching::{Unwatched, Watch};
