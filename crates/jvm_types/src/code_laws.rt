//! Laws of code, for all bytes: each function only states one.

ghost use Rattle.jvm_types.specs.CodeFault.{CodeIsFaultless, FaultlessIsCode, SpellsOnce};

/// What is code breaks no rule of decoding.
pub fn code_is_faultless()
    ensures { CodeIsFaultless }
{}

/// Bytes that break no rule of decoding are code.
pub fn faultless_bytes_are_code()
    ensures { FaultlessIsCode }
{}

/// Code spells one list of instructions.
pub fn code_spells_once()
    ensures { SpellsOnce }
{}
