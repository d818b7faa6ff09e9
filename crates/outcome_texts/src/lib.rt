//! What all runs of a program come to, as text: outcomes, each with an order or with steps, threads
//! that wait for ever, the printed numbers, and what no run is to do and was found.
#![tactic(auto)]

mod all;
mod ends;
mod expectations;
mod expected;
mod findings;
mod found_texts;
mod orders;
mod outcome;
mod parts;
mod prints;
mod steps;
mod stops;
mod telling;

pub use findings::{Finding, Forbidden};
pub use outcomes::{Unwatched, Watch};
pub use parts::parts_between;
pub use telling::{MOST_STATES, OutcomesError, Verdict, explain_outcomes};
