//! What is read of frames, and copies of them.

ghost use Rattle.std.specs.Prelude.{◌≡◌, ◌||◌, [], slice_get, IfOk};
ghost use Rattle.std.specs.List.{list_any};
ghost use Rattle.jvm_types.specs.Types.{is_uninitialised, is_new};
ghost use Rattle.code_verifier.specs.Visiting.{with_object_stack};

use crate::type_lists::{some_new, some_uninitialised};
use jvm_types::{Stack, TypeFrame, VType};
use std::alloc::{AllocError, Global};

/// The type of the value at a place of a stack, counted from the top.
pub fn value(stack: &Stack<VType>, place: usize) -> Option<VType>
    ensures { result ≡ slice_get stack.now place }
{
    stack.get(place).copied()
}

#[tactic(auto, using(crate::proofs::FrameLaws::uninitialised_stack, crate::proofs::FrameLaws::uninitialised_locals))]
pub fn has_uninitialised(f: &TypeFrame) -> bool
    ensures { result
        ≡ (list_any is_uninitialised f.now.stack || list_any is_uninitialised f.now.locals) }
{
    some_uninitialised(f.stack().as_slice()) || some_uninitialised(f.first_locals())
}

/// Whether a local has what a `new` made and no `<init>` was called on.
#[tactic(auto, using(crate::proofs::FrameLaws::new_locals))]
pub fn has_new_local(f: &TypeFrame) -> bool
    ensures { result ≡ list_any is_new f.now.locals }
{
    some_new(f.first_locals())
}

pub fn copy(alloc: Global, f: &TypeFrame) -> Result<TypeFrame, AllocError>
    ensures { IfOk result (λ g. g ≡ f.now) }
{
    f.with_stack(f.stack().copy(alloc)?)
}

/// A copy with another stack: no values.
pub fn without_stack(alloc: Global, f: &TypeFrame) -> Result<TypeFrame, AllocError>
    ensures { IfOk result
        (λ g. g ≡ record { stack = []; locals = f.now.locals; ready = f.now.ready }) }
{
    f.with_stack(Stack::new(alloc))
}

/// A copy with another stack: one object of the class.
pub fn with_object(alloc: Global, f: &TypeFrame, class: u16) -> Result<TypeFrame, AllocError>
    ensures { IfOk result (λ g. g ≡ with_object_stack class f.now) }
{
    let mut stack = Stack::new(alloc);
    stack.push(VType::Ref(class))?;
    f.with_stack(stack)
}
