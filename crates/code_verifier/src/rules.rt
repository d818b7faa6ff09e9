//! The rules at one instruction (JVMS 4.10.2).

ghost use Rattle.std.specs.Prelude.{◌≡◌, ◌==◌};
ghost use Rattle.std.specs.List.{list_any};
ghost use Rattle.jvm_types.specs.Verifying.{takes_too_many, gives_too_many, names_no_local};
ghost use Rattle.jvm_types.specs.Verifying.{lacks_locals, is_return, misuses_object, mistypes};
ghost use Rattle.jvm_types.specs.Verifying.{returns_wrongly, falls_off, broken_before};
ghost use Rattle.jvm_types.specs.Verifying.{broken_after};

use crate::frames::{has_new_local, has_uninitialised};
use crate::operands::{Fault, some_operand};
use code_table::{falls_through, goes_back};
use handler_rows::HandledMethod;
use jvm_types::{Insn, Kind, MethodInfo, Op, OpRow, TypeFrame, VRule};

/// V1: the stack has too few values.
fn takes_too_many(row: &OpRow, f: &TypeFrame) -> bool
    ensures { result ≡ takes_too_many row.now f.now }
{
    f.stack().len() < row.takes.len()
}

/// V2: the stack would pass `max_stack`.
fn gives_too_many(m: &MethodInfo, row: &OpRow, f: &TypeFrame) -> bool
    ensures { result ≡ gives_too_many m.now row.now f.now }
{
    let left = f.stack().len().saturating_sub(row.takes.len());
    usize::from(m.max_stack) < left.saturating_add(row.gives.len())
}

/// Whether a local that is read or written is none of the method's.
fn names_no_local<T: Copy + Drop>(m: &MethodInfo, named: Option<(u16, T)>) -> bool
    ensures { result ≡ names_no_local m.now named }
{
    match named {
        Some((i, _)) => m.max_locals <= i,
        None => false,
    }
}

/// V3: a local at or above `max_locals`, or arguments that do not fit there.
fn lacks_locals(m: &MethodInfo, row: &OpRow, f: &TypeFrame) -> bool
    ensures { result ≡ lacks_locals m.now row.now f.now }
{
    names_no_local(m, row.reads)
        || names_no_local(m, row.writes)
        || usize::from(m.max_locals) < f.local_count()
}

fn is_return(op: &Op) -> bool
    ensures { result ≡ is_return op.now }
{
    matches!(op, Op::Ireturn | Op::Areturn | Op::Return)
}

/// V7: an uninitialised object is misused.
fn misuses_object(m: &HandledMethod<'_>, insn: &Insn, row: &OpRow, f: &TypeFrame) -> bool
    ensures { result ≡ misuses_object m.now insn.now row.now f.now }
{
    some_operand(m, Fault::Misuse, row, f)
        || (goes_back(insn.pc, &insn.op) && has_uninitialised(f))
        || (has_new_local(f) && m.is_covered(insn.pc))
        || (is_return(&insn.op) && !f.is_ready())
}

/// V4: a value of another type.
fn mistypes(m: &HandledMethod<'_>, row: &OpRow, f: &TypeFrame) -> bool
    ensures { result ≡ mistypes m.now row.now f.now }
{
    some_operand(m, Fault::Mistype, row, f)
}

/// V8: a return instruction that does not fit the descriptor.
fn returns_wrongly(op: &Op, kind: Option<Kind>) -> bool
    ensures { result ≡ returns_wrongly op.now kind }
{
    match op {
        Op::Return => kind.is_some(),
        Op::Ireturn => !matches!(kind, Some(Kind::Int | Kind::Bool)),
        Op::Areturn => !matches!(kind, Some(Kind::Ref(_))),
        _ => false,
    }
}

/// Whether an instruction begins at a pc.
fn begins_at(m: &HandledMethod<'_>, pc: u32) -> bool
    ensures { result ≡ list_any (λ other. other.pc == pc) m.now.code }
{
    m.find(pc).is_some()
}

/// V6: the code falls off its end.
fn falls_off(m: &HandledMethod<'_>, insn: &Insn) -> bool
    ensures { result ≡ falls_off m.now.code insn.now }
{
    falls_through(&insn.op) && !begins_at(m, insn.next)
}

/// The first rule that is broken before an edge is brought.
pub fn broken_before(
    m: &HandledMethod<'_>,
    insn: &Insn,
    row: &OpRow,
    f: &TypeFrame,
) -> Option<VRule>
    ensures { result ≡ broken_before m.now insn.now row.now f.now }
{
    if takes_too_many(row, f) {
        Some(VRule::V1)
    } else if gives_too_many(m.method(), row, f) {
        Some(VRule::V2)
    } else if lacks_locals(m.method(), row, f) {
        Some(VRule::V3)
    } else if misuses_object(m, insn, row, f) {
        Some(VRule::V7)
    } else if mistypes(m, row, f) {
        Some(VRule::V4)
    } else {
        None
    }
}

/// The first rule that is broken after the normal edges were brought.
pub fn broken_after(m: &HandledMethod<'_>, insn: &Insn) -> Option<VRule>
    ensures { result ≡ broken_after m.now insn.now }
{
    if returns_wrongly(&insn.op, m.method().result) {
        Some(VRule::V8)
    } else if falls_off(m, insn) {
        Some(VRule::V6)
    } else {
        None
    }
}
