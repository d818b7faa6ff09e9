//! Why a class file was not read.

use jvm_types::CRule;

/// Why a class file was not read.
#[derive(Clone, Copy, Debug, PartialEq, Eq)]
pub enum ReadError {
    /// Memory ran out.
    Memory,
    /// The rule that refuses the file, and the offset in the file, in bytes.
    Refused(CRule, u32),
}
