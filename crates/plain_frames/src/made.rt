//! The frame behind an instruction.

ghost use Rattle.std.specs.Prelude.{◌≡◌, ◌∷◌, drop, length, reverse, take, IfOk};
ghost use Rattle.machine_types.specs.Frames.{arguments_of, making, pushed, top_row, taken_from};
ghost use Rattle.machine_types.specs.Frames.{went, went_on};

use crate::at::At;
use crate::frame::Frame;
use crate::rows::{above, below, frame_on};
use checked_program::Checked;
use code_table::row;
use jvm_types::{OpRow, Rows};
use std::alloc::{AllocError, Global};

fn row_at(alloc: Global, p: &Checked, at: &At) -> Result<OpRow, AllocError>
    ensures { IfOk result (λ r. r ≡ top_row p.now.program at.now) }
{
    let insn = at.insn();
    row(
        alloc,
        p.program(),
        at.method(),
        insn.pc,
        at.target(),
        &insn.op,
    )
}

/// The top frame at a pc, with the value that its instruction makes.
pub fn made_on(alloc: Global, p: &Checked, at: &At, to: u32, made: u64) -> Result<Frame, AllocError>
    ensures { IfOk result (λ f. f ∷ at.now.below ≡ went p.now.program at.now to made) }
{
    let row = row_at(alloc, p, at)?;
    let f = frame_on(alloc, &row, to, made, at.frame())?;
    Ok(f)
}

/// The top frame at the following instruction, with the value that its own makes.
pub fn went_on(alloc: Global, p: &Checked, at: &At, made: u64) -> Result<Frame, AllocError>
    ensures { IfOk result (λ f. f ∷ at.now.below ≡ went_on p.now.program at.now made) }
{
    made_on(alloc, p, at, at.insn().next, made)
}

/// How many values the instruction takes.
fn takes(p: &Checked, at: &At) -> usize
    ensures { result ≡ length (top_row p.now.program at.now).takes }
{
    let insn = at.insn();
    code_table::takes(p.program(), at.method(), insn.pc, at.target(), &insn.op)
}

/// The top frame without what its instruction takes.
pub fn taken_from(alloc: Global, p: &Checked, at: &At) -> Result<Frame, AllocError>
    ensures { IfOk result (λ f. f ≡ taken_from p.now.program at.now) }
{
    let frame = at.frame();
    let stack = Rows::from_slice(alloc, below(frame.stack(), takes(p, at)))?;
    frame.moved(alloc, frame.pc(), stack)
}

/// The top frame behind its instruction, with a new object.
pub fn pushed(alloc: Global, p: &Checked, at: &At, reference: u64) -> Result<Frame, AllocError>
    ensures { IfOk result (λ f. f ∷ at.now.below ≡ pushed reference (making p.now.program at.now)) }
{
    let frame = at.frame();
    let mut stack = Rows::new(alloc);
    stack.push(reference)?;
    stack.extend_from_slice(below(frame.stack(), takes(p, at)))?;
    frame.moved(alloc, at.insn().next, stack)
}

/// The values in the reverse order.
fn reversed(alloc: Global, values: &[u64]) -> Result<Rows<u64>, AllocError>
    ensures { IfOk result (λ rows. rows ≡ reverse values.now) }
{
    let mut left = Rows::from_slice(alloc, values)?;
    let mut rows = Rows::new(alloc);
    while let Some(value) = left.pop() {
        rows.push(value)?;
    }
    Ok(rows)
}

/// What a call takes, in the order of the arguments.
pub fn arguments_of(alloc: Global, p: &Checked, at: &At) -> Result<Rows<u64>, AllocError>
    ensures { IfOk result (λ args. args ≡ arguments_of p.now.program at.now) }
{
    let count = takes(p, at);
    reversed(alloc, above(at.frame().stack(), count))
}
