//! What a row does to a stack and to locals, whatever their places hold.

ghost use Rattle.std.specs.Prelude.{◌≡◌, ◌++◌, map, slice_index_or, IfOk, OnOk};
ghost use Rattle.jvm_types.specs.CodeTable.{value_of, stack_after, locals_after};
ghost use Rattle.jvm_types.specs.declared.typing.VType.{VType};

use jvm_types::{Given, OpRow, Rows, Stack, VType};
use std::alloc::{AllocError, Global};

/// What the places of stacks and locals hold, as types, tags or words, and what an instruction that
/// makes a value of its own puts there.
pub trait Making {
    type Value: Copy + Drop;

    ghost none: { Self → Self.Value };

    ghost made: { Self → VType → Self.Value };

    /// What a place holds of which nothing is known.
    fn none(&self) -> Self::Value
        ensures { result ≡ none self.now };

    /// What a place holds that gets a new value of a type.
    fn made(&self, t: VType) -> Self::Value
        ensures { result ≡ made self.now t };
}

/// Places hold types, and nothing is known of one that holds Top.
pub struct Types;

impl Making for Types {
    type Value = VType;

    ghost use Rattle.jvm_types.specs.declared.typing.VType.TheVariants.{Top};

    ghost none = { λ types. Top };

    ghost made = { λ types t. t };

    fn none(&self) -> VType {
        VType::Top
    }

    fn made(&self, t: VType) -> VType {
        t
    }
}

fn taken<T: Copy + Drop>(stack: &Stack<T>, place: u8, none: T) -> T
    ensures { result ≡ slice_index_or stack.now place none }
{
    stack.get(usize::from(place)).copied().unwrap_or(none)
}

fn local<T: Copy + Drop>(locals: &[T], i: u16, none: T) -> T
    ensures { result ≡ slice_index_or locals.now i none }
{
    locals.get(usize::from(i)).copied().unwrap_or(none)
}

/// What is pushed, or written to a local, by an instruction that finds this stack and these locals.
pub fn value_of<M: Making>(
    making: &M,
    stack: &Stack<M::Value>,
    locals: &[M::Value],
    given: Given,
) -> M::Value
    ensures { result ≡ value_of (M.none making.now) (M.made making.now) stack.now locals.now given }
{
    match given {
        Given::Fresh(t) => making.made(t),
        Given::Taken(place) => taken(stack, place, making.none()),
        Given::Local(i) => local(locals, i, making.none()),
    }
}

/// Pushes what an instruction leaves, the last first.
fn push_all<M: Making>(
    making: &M,
    pushed: &mut Stack<M::Value>,
    gives: &[Given],
    stack: &Stack<M::Value>,
    locals: &[M::Value],
) -> Result<(), AllocError>
    ensures { OnOk result (pushed.new ≡ map (λ given.
        value_of (M.none making.now) (M.made making.now) stack.now locals.now given)
        gives.now ++ pushed.old) }
{
    for i in (0..gives.len()).rev() {
        pushed.push(value_of(making, stack, locals, gives[i]))?;
    }
    Ok(())
}

/// The stack after an instruction that has this row and finds this stack and these locals.
pub fn stack_after<M: Making>(
    alloc: Global,
    making: &M,
    row: &OpRow,
    stack: &Stack<M::Value>,
    locals: &[M::Value],
) -> Result<Stack<M::Value>, AllocError>
    ensures { IfOk result (λ after.
        after ≡ stack_after (M.none making.now) (M.made making.now) row.now stack.now
        locals.now) }
{
    let mut after = stack.without_for(alloc, row.takes.len(), row.gives.len())?;
    push_all(making, &mut after, row.gives.as_slice(), stack, locals)?;
    Ok(after)
}

/// The locals become those after an instruction that writes so and finds this stack. A local that
/// is not there is not written.
pub fn write_local<M: Making>(
    making: &M,
    writes: Option<(u16, Given)>,
    stack: &Stack<M::Value>,
    locals: &mut Rows<M::Value>,
)
    ensures { locals.new
        ≡ locals_after (M.none making.now) (M.made making.now) writes stack.now locals.old }
{
    if let Some((i, given)) = writes {
        let i = usize::from(i);
        if i < locals.len() {
            let value = value_of(making, stack, locals.as_slice(), given);
            locals.set(i, value);
        }
    }
}
