//! What sections that run without their lock may read.

ghost use Rattle.std.specs.Prelude.{IfOk};
ghost use Rattle.jvm_types.specs.ProgramInvariant.{IsProgram};
ghost use Rattle.checked_program.specs.MarkedProgram.{AreTaggings};
ghost use Rattle.checked_program.specs.OwnedArrays.{AreUses};
ghost use Rattle.checked_program.specs.TaggedCode.{tagged_by};
ghost use Rattle.frozen_classes.specs.FrozenClasses.{AreFrozenClasses};

use crate::field_uses::field_uses_of;
use crate::owned_arrays::find_owned;
use checked_program::{Tags, Uses};
use jvm_types::{Program, Rows};
use std::alloc::{AllocError, Global};

/// How each field may be read, which fields own their arrays, and which elements are read of such
/// arrays. `tags` has the lock tags of each method,
/// `frozen` a flag for the class of each file. The error is that memory was refused.
pub fn uses(
    alloc: Global,
    p: &Program,
    tags: &Rows<Tags>,
    frozen: &Rows<bool>,
) -> Result<Uses, AllocError>
    requires program { IsProgram p.now }
    requires tagged { AreTaggings p.now p.now.methods tags.now }
    requires frozen { AreFrozenClasses p.now (tagged_by tags.now) frozen.now }
    ensures { IfOk result (AreUses p.now (tagged_by tags.now)) }
{
    let fields = field_uses_of(alloc, p, tags, frozen)?;
    let owned = find_owned(alloc, p, tags, frozen)?;
    Ok(Uses {
        fields,
        owners: owned.owners,
        elements: owned.elements,
    })
}
