//! The instructions over the state of a thread (JVMS 6.5).
#![tactic(auto)]

mod calls;
mod checks;
mod did;
mod effecting;
mod exceptions;
mod going_on;
mod halves;
mod monitors;
mod moves;
mod objects;
mod phases;
mod places;
mod running;

pub use calls::given_back;
pub use did::Did;
pub use halves::{InsnWant, run_by, run_or_want};
pub use phases::{begin_root, dispatch, finish_element, go_after, store_header};
pub use places::{CurrentInsn, method_of};
pub use running::{local, run, run_want, run_with};
