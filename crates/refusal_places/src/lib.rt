//! The names of what the place of a refusal is of, in the class that its file spells.
#![tactic(auto)]

pub mod explaining;
pub mod naming;
pub mod opcode_mends;
pub mod roots;
pub mod sentences;
pub mod spots;

pub use explaining::explained_refusal;
