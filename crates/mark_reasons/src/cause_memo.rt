//! What keeps sections from the fields of a program, as far as it was asked.

ghost use Rattle.std.specs.Prelude.{◌≡◌, ◌<◌, IfOk, None, Some, length, slice_set};
ghost use Rattle.std.specs.Prelude.{replicate, slice_index_or};

use crate::cause::Cause;
use std::alloc::{AllocError, Global};

/// For each field of a program what was found, where that was asked: so what all methods of a class
/// do with the field is looked at once, however many sections read it.
#[derive(Drop)]
pub struct FieldMemo {
    pub causes: Vec<Option<Cause>>,
}

impl FieldMemo {
    /// That of so many fields, of which none was asked.
    pub fn new(alloc: Global, fields: usize) -> Result<FieldMemo, AllocError>
        ensures { IfOk result (λ memo. memo.causes.items ≡ replicate fields None) }
    {
        let causes = vec![in alloc; None; fields]?;
        Ok(FieldMemo { causes })
    }

    /// What was found for a field.
    pub fn get(&self, field: u32) -> Option<Cause>
        ensures { result ≡ slice_index_or self.now.causes.items field None }
    {
        match self.causes.get(field as usize) {
            Some(found) => *found,
            None => None,
        }
    }

    /// Keeps what was found for a field.
    pub fn keep(&mut self, field: u32, cause: Cause)
        requires { field < length self.old.causes.items }
        ensures { self.new.causes.items ≡ slice_set self.old.causes.items field (Some cause) }
    {
        self.causes[field as usize] = Some(cause);
    }
}

/// For each field what keeps its arrays from staying in their objects, and what keeps it from being
/// read that is neither frozen nor guarded.
#[derive(Drop)]
pub struct CauseMemo {
    pub arrays: FieldMemo,
    pub fields: FieldMemo,
}

impl CauseMemo {
    /// That of so many fields, of which none was asked.
    pub fn new(alloc: Global, fields: usize) -> Result<CauseMemo, AllocError>
        ensures arrays { IfOk result (λ memo. memo.arrays.causes.items ≡ replicate fields None) }
        ensures fields { IfOk result (λ memo. memo.fields.causes.items ≡ replicate fields None) }
    {
        let arrays = FieldMemo::new(alloc, fields)?;
        let fields = FieldMemo::new(alloc, fields)?;
        Ok(CauseMemo { arrays, fields })
    }
}
