//! The frame at the start of a method.

ghost use Rattle.std.specs.Prelude.{◌≡◌, ◌++◌, map, not, IfOk, OnOk};
ghost use Rattle.jvm_types.specs.CodeTable.{type_of};
ghost use Rattle.jvm_types.specs.Types.{receiver_types, entry_type_frame};

use code_table::{is_init, type_of};
use jvm_types::flags::is_static;
use jvm_types::{Kind, MethodInfo, Rows, Stack, TypeFrame, VType};
use std::alloc::{AllocError, Global};

/// `this` in local 0 of an instance method.
fn receiver_types(alloc: Global, m: &MethodInfo) -> Result<Rows<VType>, AllocError>
    ensures { IfOk result (λ types. types ≡ receiver_types m.now) }
{
    let mut types = Rows::new(alloc);
    if !is_static(m.flags) {
        types.push(if is_init(m) {
            VType::This
        } else {
            VType::Ref(m.class)
        })?;
    }
    Ok(types)
}

fn push_arguments(types: &mut Rows<VType>, args: &[Kind]) -> Result<(), AllocError>
    ensures { OnOk result (types.new ≡ types.old ++ map type_of args.now) }
{
    for kind in args {
        types.push(type_of(*kind))?;
    }
    Ok(())
}

/// The frame at pc 0. It has more locals than `max_locals` where the arguments do not fit.
pub fn entry_frame(alloc: Global, m: &MethodInfo) -> Result<TypeFrame, AllocError>
    ensures { IfOk result (λ f. f ≡ entry_type_frame m.now) }
{
    let mut locals = receiver_types(alloc, m)?;
    push_arguments(&mut locals, m.args.as_slice())?;
    TypeFrame::new(
        alloc,
        Stack::new(alloc),
        locals,
        usize::from(m.max_locals),
        !is_init(m),
    )
}
