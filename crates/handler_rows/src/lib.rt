//! Handler rows by the pcs that they cover (JVMS 4.7.3), found without a look at each row:
//! `HandledMethod` keeps bounds on the rows that follow each row.
#![tactic(auto)]

mod handled_method;
mod hull;

pub use handled_method::HandledMethod;
pub use hull::{Hull, covers};
