//! One event of a thread: the access that it wants, and what the thread becomes by the word that
//! the access found.
#![tactic(auto)]

mod ahead;
mod attempts;
mod entering;
mod halves;
mod leaving;
mod marked;
mod moving;
mod wanting;

pub use ahead::{Element, Exit, RunLoop, Sort, Touch, run_ahead};
pub use entry_code::EntryTables;
pub use halves::{Want, apply_effect, step_or_want};
pub use instr_effects::perform;
pub use instr_steps::CurrentInsn;
pub use moving::{apply, event, step_local};
pub use wanting::want;
