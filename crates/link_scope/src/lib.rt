//! What the names of some class files name: classes, types and members (JVMS 4.4, 5.4.3).
#![tactic(auto)]

mod built_in;
pub mod file_scope;
mod file_texts;
mod members;
mod names;
pub mod scope;
mod table;
mod texts;

pub use file_scope::FileScope;
pub use scope::{Found, Scope};
