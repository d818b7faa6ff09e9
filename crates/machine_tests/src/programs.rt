//! Programs for tests.

ghost use Rattle.std.specs.Prelude.{◌≡◌, ◌∷◌, [], codes, IfOk};

use checked_program::Checked;
use jvm_types::{Program, Rows};
use std::alloc::{AllocError, Global};

/// A program of one class without members.
fn one_class(alloc: Global) -> Result<Program, AllocError>
    ensures { IfOk result (λ p.
        p ≡ record
        { names = codes "A" ∷ []; fields = []; methods = []; heap = 4096; workers = 0 }) }
{
    let mut names = Rows::new(alloc);
    names.push(Rows::from_slice(alloc, b"A")?)?;
    Ok(Program {
        names,
        fields: Rows::new(alloc),
        methods: Rows::new(alloc),
        heap: 4096,
        workers: 0,
    })
}

/// The same as a checked program. Errors: where memory runs out.
#[tactic(auto, using(crate::proofs::EmptyProgram::empty_is_marked))]
pub fn empty(alloc: Global) -> Result<Checked, AllocError> {
    let program = one_class(alloc)?;
    Ok(Checked::of(
        program,
        Rows::new(alloc),
        Rows::new(alloc),
        Rows::new(alloc),
    ))
}
