//! Copies of instructions.

ghost use Rattle.std.specs.Prelude.{◌≡◌, IfOk};

use jvm_types::{Insn, Rows};
use std::alloc::{AllocError, Global};

/// A copy of an instruction.
fn copy_insn(alloc: Global, insn: &Insn) -> Result<Insn, AllocError>
    ensures { IfOk result (λ copy. copy ≡ insn.now) }
{
    let op = insn.op.copied(alloc)?;
    Ok(Insn {
        pc: insn.pc,
        next: insn.next,
        op,
    })
}

/// A copy of the instructions of a method.
fn copy_insns(alloc: Global, insns: &[Insn]) -> Result<Rows<Insn>, AllocError>
    ensures { IfOk result (λ copy. copy ≡ insns.now) }
{
    let mut copy = Rows::new(alloc);
    for insn in insns {
        copy.push(copy_insn(alloc, insn)?)?;
    }
    Ok(copy)
}

/// A copy of the instructions of some methods.
pub fn copy_code(alloc: Global, code: &[Rows<Insn>]) -> Result<Rows<Rows<Insn>>, AllocError>
    ensures { IfOk result (λ copy. copy ≡ code.now) }
{
    let mut copy = Rows::new(alloc);
    for insns in code {
        copy.push(copy_insns(alloc, insns.as_slice())?)?;
    }
    Ok(copy)
}
