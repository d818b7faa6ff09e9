//! Sections that run without their lock: how an attempt begins, whether the lock word still is as
//! it was noted, and how the attempt is done or fails. That the word is read at the start and again
//! at the end is the PLDI 2010 publication's; the checks in between, and how often a section is
//! tried, are the machine's own.
#![tactic(auto)]

mod attempts;
mod checkup;

pub use attempts::{begin, check, fail, finish};
pub use checkup::{Checkup, compare};

#[cfg(test)]
mod tests;
