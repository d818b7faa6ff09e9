//! The monitor of an object where a thread takes its lock, leaves it, makes the lock fat, waits or
//! notifies (JVMS 2.11.10, and JLS 17.1 and 17.2 in the edition of its time). The flat lock with
//! its count is that of the PLDI 2010 publication.
#![tactic(auto)]

mod again;
mod answers;
mod asking;
mod bits;
mod leaving;
mod taking;
mod waiting;

pub use again::{enter_again, exit_once, put_depth};
pub use answers::answer;
pub use asking::{ask, ask_last_exit, freed};
pub use leaving::exit_last;
pub use taking::{acquire, take, take_unheld};
