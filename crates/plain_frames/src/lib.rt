//! The frames of a thread of the plain machine, and how a thread goes on (JVMS 2.6, 2.10, 6.5):
//! every frame and every value is a value of its own, and what is to come is made before anything
//! changes.
#![tactic(auto)]

mod at;
mod calls;
mod effects;
mod exceptions;
mod frame;
mod made;
mod onward;
mod rows;

pub use at::{At, top_of};
pub use calls::{called, rooted};
pub use effects::{done, effect_at, length_of};
pub use exceptions::{after, dispatched, returns};
pub use frame::Frame;
pub use made::{made_on, pushed, went_on};
pub use onward::{Change, Onward, Then, threw};
