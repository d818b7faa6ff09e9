//! Why files were not linked.

use jvm_types::{LRule, Place};
use link_rules::Fault;
use std::alloc::AllocError;

/// Why files were not linked.
#[derive(Clone, Copy, Debug, PartialEq, Eq)]
pub enum LinkError {
    /// Memory ran out.
    Memory,
    /// The first rule that refuses the files, and where.
    Refused(LRule, Place),
}

impl From<AllocError> for LinkError {
    ghost use Rattle.std.specs.Prelude.{◌≡◌};
    ghost use Rattle.linker.specs.declared.error.LinkError.TheVariants.{Memory};

    ghost from_gives = { λ _ e. e ≡ Memory };

    fn from(_error: AllocError) -> LinkError {
        LinkError::Memory
    }
}

impl From<Fault> for LinkError {
    ghost use Rattle.std.specs.Prelude.{◌≡◌};
    ghost use Rattle.linker.specs.declared.error.LinkError.TheVariants.{Refused};

    ghost from_gives = { λ fault e. e ≡ Refused fault.0 fault.1 };

    fn from(fault: Fault) -> LinkError {
        let (rule, place) = fault;
        LinkError::Refused(rule, place)
    }
}
