//! Decodes the code of methods (JVMS 6).
#![tactic(auto)]

mod decoding;
mod error;
mod marks;
mod numbers;
mod opcodes;
mod operands;
mod sweep;
mod switches;

pub use decoding::decode;
pub use error::CodeError;
