//! The memory of the plain machine, which has objects and static fields in place of words (JVMS
//! 2.5.3, 2.7).
#![tactic(auto)]

mod finding;
mod memory;
mod mixing;
mod object;
mod places;
mod start;

pub use memory::Memory;
pub use mixing::mixed;
pub use places::{header_place, value_place, variable_place};
