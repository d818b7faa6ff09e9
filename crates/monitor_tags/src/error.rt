//! Why a method was not tagged.

ghost use Rattle.std.specs.Prelude.{◌≡◌};
ghost use Rattle.monitor_tags.specs.Visiting.{error_of};

use code_visits::Stop;
use jvm_types::SRule;

/// Why a method has no tagging.
#[derive(Clone, Copy, Debug, PartialEq, Eq)]
pub enum TagError {
    /// Memory ran out.
    Memory,
    /// The rule that refuses the method, and the pc that the rule names.
    Refused(SRule, u32),
}

/// Why a method has no tagging, by why its visits stopped.
pub fn error_of(stop: Stop<SRule>) -> TagError
    ensures { result ≡ error_of stop }
{
    match stop {
        Stop::Memory => TagError::Memory,
        Stop::Refused(rule, pc) => TagError::Refused(rule, pc),
    }
}
