//! Why a section runs with its lock: the instruction that breaks the rule of its mark, and the
//! calls that lead there.
#![tactic(auto)]

pub mod array_causes;
pub mod cause;
pub mod cause_memo;
pub mod explain;
pub mod facts;
pub mod own;
pub mod reached;
pub mod reason;
pub mod recursion;
pub mod search;
pub mod shared;
pub mod telling;

pub use cause::Cause;
pub use reason::{Reason, Site};
pub use telling::{MarksError, explain_marks};
