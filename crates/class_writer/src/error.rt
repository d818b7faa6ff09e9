//! Why a class was not written, or a constant not added.

use std::alloc::AllocError;

/// Why a class was not written.
#[derive(Clone, Copy, Debug, PartialEq, Eq)]
pub enum WriteError {
    /// Memory ran out.
    Memory,
    /// A count or a length doesn't fit the field that states it (JVMS 4.1).
    TooLarge,
    /// All counts and lengths fit, and no bytes spell the class.
    NoSpelling,
}

impl From<AllocError> for WriteError {
    ghost use Rattle.std.specs.Prelude.{◌≡◌};
    ghost use Rattle.class_writer.specs.declared.error.WriteError.TheVariants.{Memory};

    ghost from_gives = { λ _ e. e ≡ Memory };

    fn from(_error: AllocError) -> WriteError {
        WriteError::Memory
    }
}

/// Why a constant was not added.
#[derive(Clone, Copy, Debug, PartialEq, Eq)]
pub enum BuildError {
    /// Memory ran out.
    Memory,
    /// The constant isn't there, and its last index would be above 65,534.
    Full,
}

impl From<AllocError> for BuildError {
    ghost use Rattle.std.specs.Prelude.{◌≡◌};
    ghost use Rattle.class_writer.specs.declared.error.BuildError.TheVariants.{Memory};

    ghost from_gives = { λ _ e. e ≡ Memory };

    fn from(_error: AllocError) -> BuildError {
        BuildError::Memory
    }
}
