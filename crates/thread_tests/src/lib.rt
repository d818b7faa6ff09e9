//! Tests of runs on threads that use public calls alone. They stand here so that the crates below
//! are not proved a second time for them.
#![tactic(auto)]

#[cfg(test)]
mod by_hand;
#[cfg(test)]
mod cell_runs;
#[cfg(test)]
mod gates;
#[cfg(test)]
mod recorded_runs;
