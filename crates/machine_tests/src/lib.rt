//! Tests of the calls that the machine stands on, above the crates that have them. Each topic is a
//! module. They stand here so that the crates below are not proved a second time for them.
#![tactic(auto)]

mod programs;

pub use programs::empty;

#[cfg(test)]
mod accesses;
#[cfg(test)]
mod own_words;
#[cfg(test)]
mod threads;
