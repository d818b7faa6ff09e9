//! The rules at one instruction, but for S3.

ghost use Rattle.std.specs.Prelude.{◌≡◌};
ghost use Rattle.std.specs.List.{list_any};
ghost use Rattle.jvm_types.specs.Verifying.{covering, is_return};
ghost use Rattle.checked_program.specs.Tagging.{catches_all, enters_untagged, is_innermost};
ghost use Rattle.checked_program.specs.Tagging.{exits_other, may_leave, leaves_held};

use checked_program::{Tag, same_tag};
use code_table::can_throw;
use handler_rows::HandledMethod;
use jvm_types::{Insn, Op, Row, Stack};

/// Whether a handler row catches every exception.
pub fn catches_all(row: &Row) -> bool
    ensures { result ≡ catches_all row.now }
{
    row.catch_class == 0
}

fn is_return(op: &Op) -> bool
    ensures { result ≡ is_return op.now }
{
    matches!(op, Op::Ireturn | Op::Areturn | Op::Return)
}

/// S1: `monitorenter` on a value without a tag.
pub fn enters_untagged(op: &Op, stack: &Stack<Tag>) -> bool
    ensures { result ≡ enters_untagged op.now stack.now }
{
    match op {
        Op::Monitorenter => !matches!(stack.get(0), Some(Tag::This | Tag::At(_))),
        _ => false,
    }
}

/// Whether a tag is that of the innermost monitor.
fn is_innermost(t: Tag, held: &Stack<Tag>) -> bool
    ensures { result ≡ is_innermost t held.now }
{
    match t {
        Tag::Untagged => false,
        _ => match held.get(0) {
            Some(u) => same_tag(t, *u),
            None => false,
        },
    }
}

/// S2: `monitorexit` on a value whose tag is not the innermost held one.
pub fn exits_other(op: &Op, stack: &Stack<Tag>, held: &Stack<Tag>) -> bool
    ensures { result ≡ exits_other op.now stack.now held.now }
{
    match op {
        Op::Monitorexit => match stack.get(0) {
            Some(t) => !is_innermost(*t, held),
            None => true,
        },
        _ => false,
    }
}

/// Whether a row that covers a pc catches every exception.
fn is_caught(m: &HandledMethod<'_>, pc: u32) -> bool
    ensures { result ≡ list_any catches_all (covering m.now pc) }
{
    let mut k = 0;
    while let Some((behind, row)) = m.next_row(k, pc, 0) {
        if catches_all(row) {
            return true;
        }
        k = behind;
    }
    false
}

/// Whether an instruction returns, or an exception of it may leave the method.
fn may_leave(m: &HandledMethod<'_>, insn: &Insn) -> bool
    ensures { result ≡ may_leave m.now insn.now }
{
    is_return(&insn.op) || (can_throw(&insn.op) && !is_caught(m, insn.pc))
}

/// S4: a return with a held tag, or an exception that may leave the method with one.
pub fn leaves_held(m: &HandledMethod<'_>, insn: &Insn, held: &Stack<Tag>) -> bool
    ensures { result ≡ leaves_held m.now insn.now held.now }
{
    match held.get(0) {
        Some(_) => may_leave(m, insn),
        None => false,
    }
}
