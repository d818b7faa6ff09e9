//! The frame after an instruction.

ghost use Rattle.std.specs.Prelude.{◌≡◌, ◌≤◌, ℕ, Some, true, false, [], ◌∷◌, length, IfOk};
ghost use Rattle.std.specs.Option.{IfSome};
ghost use Rattle.jvm_types.specs.Types.{filled, is_uninitialised};
ghost use Rattle.jvm_types.specs.CodeTable.{stack_after, locals_after};
ghost use Rattle.jvm_types.specs.Verifying.{started, after_start, mistypes, frame_after};
ghost use Rattle.jvm_types.specs.declared.typing.VType.TheVariants.{Top};

use crate::frames::value;
use crate::type_lists::{fill, initialise, initialise_stack};
use code_table::{Types, same_type, write_local};
use jvm_types::{Given, MethodInfo, OpRow, Rows, Stack, TypeFrame, VType, Want};
use std::alloc::{AllocError, Global};

/// The stack after an instruction that has this row, as it is before an `<init>` is called.
#[tactic(auto, using(crate::proofs::FrameLaws::stack_known))]
fn stack_after(alloc: Global, row: &OpRow, f: &TypeFrame) -> Result<Stack<VType>, AllocError>
    ensures { IfOk result
        (λ stack. stack ≡ stack_after Top (λ t. t) row.now f.now.stack f.now.locals) }
{
    code_table::stack_after(alloc, &Types, row, f.stack(), f.first_locals())
}

/// A copy of the first locals, and at least so many of them.
fn first_locals(alloc: Global, f: &TypeFrame, count: usize) -> Result<Rows<VType>, AllocError>
    requires { count ≤ length f.now.locals }
    ensures locals { IfOk result (λ locals. filled (length f.now.locals) locals ≡ f.now.locals) }
    ensures count { IfOk result (λ locals. count ≤ length locals) }
{
    let kept = f.first_locals();
    let mut locals = Rows::from_vec(Vec::with_capacity(alloc, kept.len().max(count))?);
    locals.extend_from_slice(kept)?;
    fill(&mut locals, count)?;
    Ok(locals)
}

/// The first locals after an instruction that writes so, as they are before an `<init>` is called.
fn locals_after(
    alloc: Global,
    writes: Option<(u16, Given)>,
    f: &TypeFrame,
) -> Result<Rows<VType>, AllocError>
    ensures { IfOk result (λ locals.
        filled (length f.now.locals) locals
        ≡ locals_after Top (λ t. t) writes f.now.stack f.now.locals) }
{
    let Some((i, _)) = writes else {
        return first_locals(alloc, f, 0);
    };
    let count = usize::from(i) + 1;
    let mut locals = first_locals(alloc, f, count.min(f.local_count()))?;
    write_local(&Types, writes, f.stack(), &mut locals);
    Ok(locals)
}

/// The value, where an `<init>` is called on it, and its class. `own` is the class of the method.
fn started_here(own: u16, want: Want, t: VType) -> Option<(VType, u16)>
    ensures { result ≡ started own (want ∷ []) (t ∷ []) }
{
    match (want, t) {
        (Want::ToStart(_), VType::This) => Some((t, own)),
        (Want::ToStart(class), _) => Some((t, class)),
        _ => None,
    }
}

/// The object that an `<init>` is called on, and its class.
fn started(own: u16, takes: &[Want], stack: &Stack<VType>) -> Option<(VType, u16)>
    ensures { result ≡ started own takes.now stack.now }
{
    for (place, want) in takes.iter().enumerate() {
        let Some(t) = value(stack, place) else {
            return None;
        };
        if let Some(object) = started_here(own, *want, t) {
            return Some(object);
        }
    }
    None
}

/// An `<init>` is called on the object, which is of the class from then on; answers whether `this`
/// is initialised then.
fn start(
    stack: &mut Stack<VType>,
    locals: &mut Rows<VType>,
    object: VType,
    class: u16,
    ready: bool,
) -> bool
    requires { is_uninitialised object ≡ true }
    ensures { (n : ℕ) → after_start (Some (object, class))
        (record { stack = stack.old; locals = filled n locals.old; ready = ready })
        ≡ record { stack = stack.new; locals = filled n locals.new; ready = result } }
{
    initialise_stack(stack, object, class);
    initialise(locals, object, class);
    ready | same_type(object, VType::This)
}

/// Where an `<init>` is called on an object, it is of the class from then on; answers whether
/// `this` is initialised then.
fn start_object(
    stack: &mut Stack<VType>,
    locals: &mut Rows<VType>,
    object: Option<(VType, u16)>,
    ready: bool,
) -> bool
    requires { IfSome object (λ o. is_uninitialised o.0 ≡ true) }
    ensures { (n : ℕ) → after_start object
        (record { stack = stack.old; locals = filled n locals.old; ready = ready })
        ≡ record { stack = stack.new; locals = filled n locals.new; ready = result } }
{
    match object {
        Some((object, class)) => start(stack, locals, object, class, ready),
        None => ready,
    }
}

/// The frame after an instruction of the method that has this row and finds this frame, with values
/// of the types that are asked for.
pub fn frame_after(
    alloc: Global,
    m: &MethodInfo,
    row: &OpRow,
    f: &TypeFrame,
) -> Result<TypeFrame, AllocError>
    requires { mistypes m.now row.now f.now ≡ false }
    ensures { IfOk result (λ after. after ≡ frame_after m.now row.now f.now) }
{
    let mut stack = stack_after(alloc, row, f)?;
    let object = started(m.class, row.takes.as_slice(), f.stack());
    if row.writes.is_none() && object.is_none() {
        return f.with_stack(stack);
    }
    let mut locals = locals_after(alloc, row.writes, f)?;
    let ready = start_object(&mut stack, &mut locals, object, f.is_ready());
    TypeFrame::new(alloc, stack, locals, f.local_count(), ready)
}
