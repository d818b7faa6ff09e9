//! Readers of constant pools (JVMS 4.4), for all that read class files.
#![tactic(auto)]

pub mod index_kinds;
pub mod pool_texts;
