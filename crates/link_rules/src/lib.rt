//! What instructions and handler rows name, and the first rule that refuses some files (JVMS 4,
//! 5.3, 5.4).
#![tactic(auto)]

pub mod classes;
mod member_rules;
pub mod members;
pub mod places;
pub mod roots;
pub mod targets;
mod texts;
pub mod words;

pub use classes::class_pass;
pub use members::member_pass;
pub use places::Fault;
pub use roots::root_pass;
pub use targets::{catch_class, target_of};
pub use words::word_pass;
