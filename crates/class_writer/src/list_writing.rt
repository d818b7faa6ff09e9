//! Lists of a class file, behind their length (JVMS 4.1).

ghost use Rattle.std.specs.Prelude.{ℕ, List};
ghost use Rattle.std.specs.List.{AllByRecursion, flat_map};
ghost use Rattle.jvm_types.specs.Spelling.{counted};
ghost use Rattle.jvm_types.specs.ClassGrammar.{IsCounted};
ghost use Rattle.class_writer.specs.Writing.{Writes};

use crate::error::WriteError;
use crate::numbers::write_len_u2;
use jvm_types::{Bytes, Rows};
use std::alloc::Global;

/// A part of a class that has a spelling.
pub trait Part {
    /// The bytes that spell it.
    ghost spelling: { Self → List ℕ };

    /// Each of its lengths fits its field.
    ghost fits: { Self → Type 0 };

    /// What is known of it where it was written.
    ghost known: { Self → Type 0 };

    /// Writes it behind the bytes so far.
    fn write(&self, alloc: Global, out: &mut Bytes) -> Result<(), WriteError>
        ensures { Writes (fits self.now) (known self.now) (spelling self.now) out.old out.new result };
}

fn write_items<T: Part>(alloc: Global, items: &Rows<T>, out: &mut Bytes) -> Result<(), WriteError>
    ensures { Writes (AllByRecursion T.fits items.now) (AllByRecursion T.known items.now)
        (flat_map T.spelling items.now) out.old out.new result }
{
    for item in items.as_slice() {
        item.write(alloc, out)?;
    }
    Ok(())
}

/// Writes the items behind their count.
pub fn write_list<T: Part>(
    alloc: Global,
    items: &Rows<T>,
    out: &mut Bytes,
) -> Result<(), WriteError>
    ensures { Writes (IsCounted T.fits items.now) (IsCounted T.known items.now)
        (counted T.spelling items.now) out.old out.new result }
{
    write_len_u2(items.len(), out)?;
    write_items(alloc, items, out)
}
