//! What the program sees of the outside: a shelf that files are read from, and a sink that its text
//! goes to. In memory, and of the system.
#![tactic(auto)]

pub mod adapters;
pub mod files;
pub mod shelf;
pub mod sink;
pub mod writing;
