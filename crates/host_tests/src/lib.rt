//! Tests of what the program sees of the outside, by public calls alone, above the crate that has
//! them.
#![tactic(auto)]

#[cfg(test)]
mod edges;
