//! Why a method was not verified.

ghost use Rattle.std.specs.Prelude.{◌≡◌};
ghost use Rattle.code_verifier.specs.Visiting.{verify_error_of};

use code_visits::Stop;
use jvm_types::VRule;

/// Why a method has no typing.
#[derive(Clone, Copy, Debug, PartialEq, Eq)]
pub enum VerifyError {
    /// Memory ran out.
    Memory,
    /// The rule that refuses the method, and the pc that the rule names.
    Refused(VRule, u32),
}

/// Why a method has no typing, by why its visits stopped.
pub fn error_of(stop: Stop<VRule>) -> VerifyError
    ensures { result ≡ verify_error_of stop }
{
    match stop {
        Stop::Memory => VerifyError::Memory,
        Stop::Refused(rule, pc) => VerifyError::Refused(rule, pc),
    }
}
