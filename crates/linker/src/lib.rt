//! Links class files to one program (JVMS 5.4).
#![tactic(auto)]

pub mod budget;
mod copies;
pub mod error;
mod layout;
pub mod linking;
mod methods;

pub use budget::MOST_COPIED;
pub use error::LinkError;
pub use linking::{link, link_owned};
