//! The rule of the words that the threads of a run share: with the threads that the views of their
//! seats have, they are a state that a run reaches. Its laws, each the contract of a function that
//! does nothing.
#![tactic(auto)]

pub mod shown_laws;

pub use shown_laws::{events_show, locals_show};
