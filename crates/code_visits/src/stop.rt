//! Why visits stopped.

use std::alloc::AllocError;

/// Why the visits of a method came to no end.
#[derive(Clone, Copy, Debug, PartialEq, Eq)]
pub enum Stop<R> {
    /// Memory ran out.
    Memory,
    /// The rule that a visit breaks, and the pc that the rule names.
    Refused(R, u32),
}

impl<R> From<AllocError> for Stop<R> {
    ghost use Rattle.std.specs.Prelude.{◌≡◌};
    ghost use Rattle.code_visits.specs.declared.stop.Stop.TheVariants.{Memory};

    ghost from_gives = { λ _ e. e ≡ Memory };

    fn from(_error: AllocError) -> Stop<R> {
        Stop::Memory
    }
}
