//! Why a text was not assembled.

use jvm_types::ARule;
use std::alloc::AllocError;

/// Why a text was not assembled.
#[derive(Clone, Copy, Debug, PartialEq, Eq)]
pub enum AsmError {
    /// Memory ran out.
    Memory,
    /// The rule that refuses the text, and its place: the number of a line, counted from 1, or 0
    /// for A2.
    Refused(ARule, u32),
}

impl From<AllocError> for AsmError {
    ghost use Rattle.std.specs.Prelude.{◌≡◌};
    ghost use Rattle.assembler.specs.declared.asm_error.AsmError.TheVariants.{Memory};

    ghost from_gives = { λ _ e. e ≡ Memory };

    fn from(_error: AllocError) -> AsmError {
        AsmError::Memory
    }
}
