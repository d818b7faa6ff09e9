//! The threads of the plain machine, and the monitors that are held (JVMS 2.5, 2.11.10).
#![tactic(auto)]

mod holding;
mod roots;
mod status;
mod thread;
mod threads;

pub use holding::{Holding, Holdings};
pub use roots::done_roots;
pub use status::Status;
pub use thread::Thread;
pub use threads::Threads;
