//! The values that an instruction takes and reads: whether they are misused, and whether their
//! types fit.

ghost use Rattle.std.specs.Prelude.{◌≡◌, not};
ghost use Rattle.jvm_types.specs.Verifying.{misuses, suits, some_taken, some_read, some_operand};
ghost use Rattle.code_verifier.specs.Faults.{has_fault};

use crate::frames::value;
use code_table::{is_below, is_uninitialised};
use handler_rows::HandledMethod;
use jvm_types::class_numbers::OBJECT_CLASS;
use jvm_types::{MethodInfo, OpRow, Stack, TypeFrame, VType, Want};

/// What can be wrong with a value.
#[derive(Clone, Copy)]
pub enum Fault {
    /// It is uninitialised where it may not be, or initialised where an `<init>` is called on it.
    Misuse,
    /// It is of another type.
    Mistype,
}

fn misuses(m: &MethodInfo, want: Want, t: VType) -> bool
    ensures { result ≡ misuses m.now want t }
{
    match (want, t) {
        (Want::AnyValue | Want::AnyReference, _) => false,
        (Want::ToStart(_), _) => matches!(t, VType::Ref(_)),
        (Want::AHolder(class), VType::This) => class != m.class,
        (_, _) => is_uninitialised(t),
    }
}

fn suits(m: &HandledMethod<'_>, want: Want, t: VType) -> bool
    ensures { result ≡ suits m.now want t }
{
    match (want, t) {
        (Want::AnyValue, _) => true,
        (Want::AnInt, _) => is_below(t, VType::Int),
        (Want::AnyReference, _) => is_uninitialised(t) || is_below(t, VType::Ref(OBJECT_CLASS)),
        (Want::AHolder(class), VType::This) => class == m.method().class,
        (Want::AnObject(class) | Want::AHolder(class), _) => is_below(t, VType::Ref(class)),
        (Want::ToStart(class), VType::This) => class == m.method().class || class == OBJECT_CLASS,
        (Want::ToStart(class), VType::New(pc)) => m.new_class(pc) == Some(class),
        (Want::ToStart(_), _) => false,
    }
}

fn has_fault(m: &HandledMethod<'_>, fault: Fault, want: Want, t: VType) -> bool
    ensures { result ≡ has_fault m.now fault want t }
{
    match fault {
        Fault::Misuse => misuses(m.method(), want, t),
        Fault::Mistype => !suits(m, want, t),
    }
}

fn some_taken(m: &HandledMethod<'_>, fault: Fault, takes: &[Want], stack: &Stack<VType>) -> bool
    ensures { result ≡ some_taken (has_fault m.now fault) takes.now stack.now }
{
    for (place, want) in takes.iter().enumerate() {
        match value(stack, place) {
            Some(t) => {
                if has_fault(m, fault, *want, t) {
                    return true;
                }
            }
            None => return false,
        }
    }
    false
}

fn some_read(m: &HandledMethod<'_>, fault: Fault, reads: Option<(u16, Want)>, f: &TypeFrame) -> bool
    ensures { result ≡ some_read (has_fault m.now fault) reads f.now.locals }
{
    let Some((i, want)) = reads else {
        return false;
    };
    match f.local(usize::from(i)) {
        Some(t) => has_fault(m, fault, want, t),
        None => false,
    }
}

/// Whether some value that is taken, or the local that is read, has the fault.
pub fn some_operand(m: &HandledMethod<'_>, fault: Fault, row: &OpRow, f: &TypeFrame) -> bool
    ensures { result ≡ some_operand (has_fault m.now fault) row.now f.now }
{
    some_taken(m, fault, row.takes.as_slice(), f.stack()) || some_read(m, fault, row.reads, f)
}
