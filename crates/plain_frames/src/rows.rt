//! What the row of an instruction makes of a frame.

ghost use Rattle.std.specs.Prelude.{◌≡◌, ◌++◌, map, drop, length, slice_index_or, reverse, take};
ghost use Rattle.std.specs.Prelude.{IfOk, OnOk};
ghost use Rattle.jvm_types.specs.CodeTable.{value_of, stack_after, locals_after};
ghost use Rattle.machine_types.specs.Frames.{frame_on};

use crate::frame::Frame;
use jvm_types::{Given, OpRow, Rows};
use std::alloc::{AllocError, Global};

/// What lies below the first `count` values.
pub fn below(stack: &[u64], count: usize) -> &[u64]
    ensures { result.now ≡ drop count stack.now }
{
    &stack[count.min(stack.len())..]
}

/// The first `count` values.
pub fn above(stack: &[u64], count: usize) -> &[u64]
    ensures { result.now ≡ take count stack.now }
{
    &stack[..count.min(stack.len())]
}

fn value_or_zero(values: &[u64], place: usize) -> u64
    ensures { result ≡ slice_index_or values.now place 0 }
{
    match values.get(place) {
        Some(value) => *value,
        None => 0,
    }
}

/// What an instruction pushes or writes that makes this value of its own.
fn value_of(made: u64, stack: &[u64], locals: &[u64], given: Given) -> u64
    ensures { result ≡ value_of 0 (λ type. made) stack.now locals.now given }
{
    match given {
        Given::Fresh(_) => made,
        Given::Taken(place) => value_or_zero(stack, usize::from(place)),
        Given::Local(i) => value_or_zero(locals, usize::from(i)),
    }
}

fn add_given(
    after: &mut Rows<u64>,
    made: u64,
    gives: &[Given],
    stack: &[u64],
    locals: &[u64],
) -> Result<(), AllocError>
    ensures { OnOk result
        (after.new ≡ after.old ++ map (value_of 0 (λ type. made) stack.now locals.now) gives.now) }
{
    for given in gives {
        after.push(value_of(made, stack, locals, *given))?;
    }
    Ok(())
}

fn stack_after(
    alloc: Global,
    row: &OpRow,
    made: u64,
    stack: &[u64],
    locals: &[u64],
) -> Result<Rows<u64>, AllocError>
    ensures { IfOk result
        (λ after. after ≡ stack_after 0 (λ type. made) row.now stack.now locals.now) }
{
    let mut after = Rows::new(alloc);
    add_given(&mut after, made, row.gives.as_slice(), stack, locals)?;
    after.extend_from_slice(below(stack, row.takes.len()))?;
    Ok(after)
}

fn write_local(locals: &mut Rows<u64>, writes: Option<(u16, Given)>, made: u64, stack: &[u64])
    ensures { locals.new ≡ locals_after 0 (λ type. made) writes stack.now locals.old }
{
    if let Some((i, given)) = writes {
        let i = usize::from(i);
        if i < locals.len() {
            let value = value_of(made, stack, locals.as_slice(), given);
            locals.set(i, value);
        }
    }
}

/// A frame that goes on at a pc, with what its instruction makes of its own.
pub fn frame_on(
    alloc: Global,
    row: &OpRow,
    to: u32,
    made: u64,
    f: &Frame,
) -> Result<Frame, AllocError>
    ensures { IfOk result (λ after. after ≡ frame_on row.now to made f.now) }
{
    let stack = stack_after(alloc, row, made, f.stack(), f.locals())?;
    let mut locals = Rows::from_slice(alloc, f.locals())?;
    write_local(&mut locals, row.writes, made, f.stack());
    Ok(f.changed(to, locals, stack))
}
