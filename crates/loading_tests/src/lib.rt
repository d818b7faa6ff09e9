//! Tests of loading and of texts that use public calls alone. Each topic is a module. They stand
//! here so that the crates below are not proved a second time for them.
#![tactic(auto)]

mod files;

pub use files::one;

#[cfg(test)]
mod graphs;
#[cfg(test)]
mod reaches;
#[cfg(test)]
mod reading;
#[cfg(test)]
mod reports;
#[cfg(test)]
mod tagging;
#[cfg(test)]
mod throwables;
#[cfg(test)]
mod writing;
