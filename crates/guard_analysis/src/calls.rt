//! What an instruction calls, and on which object.

ghost use Rattle.std.specs.Prelude.{◌≡◌, ◌≤◌, length, slice_get};
ghost use Rattle.jvm_types.specs.declared.limits.TheConstants.{MOST_INSTRUCTIONS as most};
ghost use Rattle.checked_program.specs.Marks.{args_of, called_mode, is_own_class, is_own_object};
ghost use Rattle.checked_program.specs.Marks.{mode_if, receiver_tag};
ghost use Rattle.guard_analysis.specs.CallGraph.{call_at, call_node, mode_number};

use crate::tag_reading::{is_this, stack_tag};
use checked_program::{Mode, Tag, TagFrame, Tags, called_method};
use jvm_types::{MethodInfo, Op, Program, Target};

fn args_of(p: &Program, u: u32) -> usize
    ensures { result ≡ args_of (slice_get p.now.methods u) }
{
    match p.methods.get(u as usize) {
        Some(m) => m.args.len(),
        None => 0,
    }
}

/// The tag of the receiver of a call.
pub(crate) fn receiver_tag(p: &Program, op: &Op, target: Target, frame: &TagFrame) -> Tag
    ensures { result ≡ receiver_tag p.now op.now target frame.now.stack }
{
    match target {
        Target::Method(u) => match op {
            Op::Invokevirtual(_) => stack_tag(frame, args_of(p, u)),
            Op::Invokespecial(_) => stack_tag(frame, args_of(p, u)),
            _ => Tag::Untagged,
        },
        _ => Tag::Untagged,
    }
}

/// Whether a value with this tag is the object of the section's monitor.
pub(crate) fn is_own_object(mode: Mode, tag: Tag) -> bool
    ensures { result ≡ is_own_object mode tag }
{
    match mode {
        Mode::OnThis => is_this(tag),
        Mode::OffThis => false,
        Mode::OnClass(_) => false,
    }
}

/// Whether a class is that of the section's monitor.
pub fn is_own_class(mode: Mode, class: u16) -> bool
    ensures { result ≡ is_own_class mode class }
{
    match mode {
        Mode::OnClass(own) => class == own,
        _ => false,
    }
}

pub(crate) fn mode_if(own: bool) -> Mode
    ensures { result ≡ mode_if own }
{
    if own { Mode::OnThis } else { Mode::OffThis }
}

/// How a method is called, by how its caller is, and the tag of the receiver.
pub(crate) fn called_mode(mode: Mode, tag: Tag) -> Mode
    ensures { result ≡ called_mode mode tag }
{
    match mode {
        Mode::OnClass(class) => Mode::OnClass(class),
        _ => mode_if(is_own_object(mode, tag)),
    }
}

fn mode_number(mode: Mode) -> u32
    ensures { result ≡ mode_number mode }
{
    match mode {
        Mode::OnThis => 0,
        Mode::OffThis => 1,
        Mode::OnClass(_) => 2,
    }
}

/// The node that an instruction calls.
fn call_node(p: &Program, mode: Mode, op: &Op, target: Target, frame: &TagFrame) -> Option<u32>
    requires few { length p.now.methods ≤ most }
    ensures { result ≡ call_node p.now mode op.now target frame.now.stack }
{
    let called = called_mode(mode, receiver_tag(p, op, target, frame));
    match called_method(op, target) {
        Some(u) => {
            if (u as usize) < p.methods.len() {
                Some(3 * u + mode_number(called))
            } else {
                None
            }
        }
        None => None,
    }
}

/// The node that the instruction of a number calls, where it is reached.
pub fn call_at(p: &Program, mode: Mode, m: &MethodInfo, tags: &Tags, i: usize) -> Option<u32>
    requires few { length p.now.methods ≤ most }
    ensures { result ≡ call_at p.now mode (slice_get m.now.code i) (slice_get m.now.targets i)
        (slice_get tags.now.frames i) }
{
    match m.code.get(i) {
        Some(insn) => match m.targets.get(i) {
            Some(target) => match tags.frames.get(i) {
                Some(Some(f)) => call_node(p, mode, &insn.op, *target, f),
                Some(None) => None,
                None => None,
            },
            None => None,
        },
        None => None,
    }
}
