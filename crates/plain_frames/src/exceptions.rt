//! Exceptions and returns (JVMS 2.10, 2.6.4).

ghost use Rattle.std.specs.Prelude.{◌≡◌, ◌∷◌, ◌++◌, [], drop, ℕ, List, None, IfOk};
ghost use Rattle.std.specs.Option.{option_map, option_to_list};
ghost use Rattle.machine_types.specs.Frames.{catches, caught, frames_of, given_back, handler_at};
ghost use Rattle.machine_types.specs.Frames.{handler_of, returned, top_of};
ghost use Rattle.machine_types.specs.Onward.{after, back, dispatched, handed, returns, unwound};
ghost use Rattle.machine_types.specs.ReadyObjects.{class_of};
ghost use Rattle.plain_frames.specs.Changes.{after_of, onward_of};

use crate::at::{At, top_of};
use crate::frame::Frame;
use crate::onward::{Change, Onward, Then};
use checked_program::Checked;
use code_table::is_subclass;
use heap_words::{class_of, monitor_of};
use jvm_types::flags::is_synchronized;
use jvm_types::{Op, Row, Rows, Stack, Thrown};
use std::alloc::{AllocError, Global};

/// What a return instruction gives back, by the stack.
fn given_back(op: &Op, stack: &[u64]) -> Option<u64>
    ensures { option_to_list result ≡ given_back op.now stack.now }
{
    match op {
        Op::Ireturn | Op::Areturn => match stack {
            [value, ..] => Some(*value),
            [] => None,
        },
        _ => None,
    }
}

/// The frame that has waited at its call, with what that gives back.
fn given(alloc: Global, result_of: Option<u64>, at: &At) -> Result<Frame, AllocError>
    ensures { IfOk result (λ f.
        f ≡ record at.now.frame
        { pc = at.now.insn.next; stack = option_to_list result_of ++ at.now.frame.stack }) }
{
    let mut stack = Rows::new(alloc);
    if let Some(value) = result_of {
        stack.push(value)?;
    }
    stack.extend_from_slice(at.frame().stack())?;
    at.frame().moved(alloc, at.insn().next, stack)
}

/// Its top frame has returned.
fn came_back(alloc: Global, p: &Checked, at: &At) -> Result<Onward, AllocError>
    ensures { IfOk result
        (λ o. onward_of (frames_of at.now) o ≡ back (returned p.now.program at.now)) }
{
    match at.caller(p) {
        Some(caller) => {
            let value = given_back(&at.insn().op, at.frame().stack());
            Ok(Onward::Running(Change::Back(given(alloc, value, &caller)?)))
        }
        None => Ok(Onward::RootReturned),
    }
}

/// It returns from its top frame, a synchronized method's when it has left its monitor.
pub fn returns(alloc: Global, p: &Checked, at: &At) -> Result<Onward, AllocError>
    ensures { IfOk result (λ o. onward_of (frames_of at.now) o ≡ returns p.now.program at.now) }
{
    if is_synchronized(at.method().flags) {
        let monitor = monitor_of(p, at.method(), at.frame().receiver());
        return Ok(Onward::Leaving(monitor, Then::Return, Change::Same));
    }
    came_back(alloc, p, at)
}

/// Its top frame ends by an exception, which the one below throws, where there is one.
fn unwound(x: u64, class: Thrown, frames: &Stack<Frame>) -> Onward
    ensures { onward_of frames.now result ≡ unwound x class (drop 1 frames.now) }
{
    if frames.len() > 1 {
        Onward::Throwing(x, class, Change::Below)
    } else {
        Onward::Uncaught(class)
    }
}

/// Whether a row catches an exception of a class that was thrown at a pc.
fn catches(pc: u32, class: u16, row: &Row) -> bool
    ensures { result ≡ catches pc class row.now }
{
    row.start <= pc && pc < row.end && (row.catch_class == 0 || is_subclass(class, row.catch_class))
}

/// The first row that catches.
fn handler_of(pc: u32, class: u16, rows: &[Row]) -> Option<Row>
    ensures { result ≡ handler_of pc class rows.now }
{
    for row in rows {
        if catches(pc, class, row) {
            return Some(*row);
        }
    }
    None
}

/// The frame whose row has caught an exception.
fn caught(alloc: Global, row: Row, x: u64, at: &At) -> Result<Frame, AllocError>
    ensures { IfOk result (λ f. f ∷ at.now.below ≡ caught row x at.now) }
{
    let mut stack = Rows::new(alloc);
    stack.push(x)?;
    let f = at.frame().moved(alloc, row.handler, stack)?;
    Ok(f)
}

/// The top frame ends by an exception, a synchronized method's when it has left its monitor.
fn ended(p: &Checked, x: u64, class: Thrown, at: &At, frames: &Stack<Frame>) -> Onward
    requires { frames_of at.now ≡ frames.now }
    ensures { onward_of frames.now result ≡ handed p.now.program x class at.now None }
{
    if is_synchronized(at.method().flags) {
        let monitor = monitor_of(p, at.method(), at.frame().receiver());
        return Onward::Leaving(monitor, Then::Unwind(x, class), Change::Same);
    }
    unwound(x, class, frames)
}

/// An exception is handed to the top frame.
fn handed(
    alloc: Global,
    p: &Checked,
    x: u64,
    class: Thrown,
    at: &At,
    frames: &Stack<Frame>,
) -> Result<Onward, AllocError>
    requires { frames_of at.now ≡ frames.now }
    ensures { IfOk result (λ o.
        onward_of frames.now o
        ≡ handed p.now.program x class at.now (handler_at (class_of class) at.now)) }
{
    let rows = at.method().rows.as_slice();
    match handler_of(at.frame().pc(), class_of(class), rows) {
        Some(row) => Ok(Onward::Running(Change::Top(caught(alloc, row, x, at)?))),
        None => Ok(ended(p, x, class, at, frames)),
    }
}

/// An exception and one frame: a row catches it, or the frame ends by it, a synchronized method's
/// when it has left its monitor. `None` where there is no frame that stands at an instruction.
pub fn dispatched(
    alloc: Global,
    p: &Checked,
    x: u64,
    class: Thrown,
    frames: &Stack<Frame>,
) -> Result<Option<Onward>, AllocError>
    ensures { IfOk result
        (λ o. option_map (onward_of frames.now) o ≡ dispatched p.now.program x class frames.now) }
{
    match top_of(p, frames) {
        Some(at) => Ok(Some(handed(alloc, p, x, class, &at, frames)?)),
        None => Ok(None),
    }
}

/// What follows when a monitor was left. `None` where there is no frame that stands at an
/// instruction, to return from.
pub fn after(
    alloc: Global,
    p: &Checked,
    frames: &Stack<Frame>,
    then: Then,
) -> Result<Option<Onward>, AllocError>
    ensures { IfOk result (λ o.
        option_map (onward_of frames.now) o ≡ after p.now.program frames.now (after_of then)) }
{
    match then {
        Then::Next => Ok(Some(Onward::Running(Change::Same))),
        Then::Return => match top_of(p, frames) {
            Some(at) => Ok(Some(came_back(alloc, p, &at)?)),
            None => Ok(None),
        },
        Then::Unwind(x, class) => Ok(Some(unwound(x, class, frames))),
    }
}
