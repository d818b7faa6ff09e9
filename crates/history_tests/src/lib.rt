//! Tests of the rule of plain steps over class files. They stand here so that the crates below are
//! not proved a second time for them.
#![tactic(auto)]

#[cfg(test)]
mod playing;
#[cfg(test)]
mod searches;
#[cfg(test)]
mod shadows;
