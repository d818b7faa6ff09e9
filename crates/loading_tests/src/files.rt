//! The files of a program.

ghost use Rattle.std.specs.Prelude.{◌≡◌, ◌∷◌, [], IfOk};

use lists::{Bytes, Rows};
use std::alloc::{AllocError, Global};

/// One file. Errors: where memory runs out.
pub fn one(alloc: Global, file: Bytes) -> Result<Rows<Bytes>, AllocError>
    ensures { IfOk result (λ files. files ≡ file ∷ []) }
{
    let mut files = Rows::new(alloc);
    files.push(file)?;
    Ok(files)
}
