//! Why code was not decoded.

use jvm_types::KRule;
use std::alloc::AllocError;

/// The rule that refuses the code, and its place: a pc, the number of a handler row for K4, or 0
/// for K5.
pub type Fault = (KRule, u32);

/// Why the code of a method was not decoded.
#[derive(Clone, Copy, Debug, PartialEq, Eq)]
pub enum CodeError {
    /// Memory ran out.
    Memory,
    /// The rule that refuses the code, and its place: a pc, the number of a handler row for K4, or
    /// 0 for K5.
    Refused(KRule, u32),
}

impl From<AllocError> for CodeError {
    ghost use Rattle.std.specs.Prelude.{◌≡◌};
    ghost use Rattle.code_decode.specs.declared.error.CodeError.TheVariants.{Memory};

    ghost from_gives = { λ _ e. e ≡ Memory };

    fn from(_error: AllocError) -> CodeError {
        CodeError::Memory
    }
}

impl From<Fault> for CodeError {
    ghost use Rattle.std.specs.Prelude.{◌≡◌};
    ghost use Rattle.code_decode.specs.declared.error.CodeError.TheVariants.{Refused};

    ghost from_gives = { λ fault e. e ≡ Refused fault.0 fault.1 };

    fn from(fault: Fault) -> CodeError {
        CodeError::Refused(fault.0, fault.1)
    }
}
