//! Frames where edges meet.

ghost use Rattle.std.specs.Prelude.{◌≡◌, ◌&&◌, true, false, not, length, IfOk};
ghost use Rattle.jvm_types.specs.Types.{meet_frames, same_frame};
ghost use Rattle.code_visits.specs.TypePlan.{type_meeting};
ghost use Rattle.code_visits.specs.TypePlan.{type_local_count};
ghost use Rattle.code_verifier.specs.Visiting.{with_object_stack};

use crate::type_lists::{
    first_type, locals_stay, meet_locals, meet_stacks, same_types, type_stays,
};
use jvm_types::{TypeFrame, VType};
use std::alloc::{AllocError, Global};

/// V5: whether two frames may not meet, since their stacks are not as deep.
pub fn clashes(frame: &TypeFrame, other: &TypeFrame) -> bool
    ensures { result ≡ type_meeting.clashes frame.now other.now }
{
    frame.stack().len() != other.stack().len()
}

/// Whether a frame is another, and so stays as it is where they meet; it may be told not to be
/// where last locals of which nothing is known are kept in one of them alone.
pub fn is_same(frame: &TypeFrame, other: &TypeFrame) -> bool
    requires { type_local_count frame.now ≡ type_local_count other.now }
    ensures { result ≡ true → type_meeting.meet frame.now other.now ≡ frame.now }
{
    if frame.is_ready() != other.is_ready() {
        return false;
    }
    if !same_types(frame.stack().as_slice(), other.stack().as_slice()) {
        return false;
    }
    same_types(frame.first_locals(), other.first_locals())
}

/// Whether `this` is initialised in a frame and not in another.
fn loses_this(frame: &TypeFrame, other: &TypeFrame) -> bool
    ensures { result ≡ (frame.now.ready && not other.now.ready) }
{
    frame.is_ready() && !other.is_ready()
}

/// Whether a frame stays as it is where it meets the locals of another, with one object of a class
/// on the stack.
pub fn stays(frame: &TypeFrame, other: &TypeFrame, class: u16) -> bool
    requires { type_local_count frame.now ≡ type_local_count other.now }
    ensures same { result ≡ true
        → same_frame frame.now (meet_frames frame.now (with_object_stack class other.now)) ≡ true }
    ensures deep { result ≡ true → length frame.now.stack ≡ 1 }
{
    if frame.stack().len() != 1 {
        return false;
    }
    if loses_this(frame, other) {
        return false;
    }
    type_stays(first_type(frame.stack()), VType::Ref(class))
        && locals_stay(frame.first_locals(), other)
}

/// The frame where two meet, which takes the place of the first; and whether that changed it.
pub fn meet_frames(
    alloc: Global,
    frame: TypeFrame,
    other: &TypeFrame,
) -> Result<(TypeFrame, bool), AllocError>
    requires apart { type_meeting.clashes frame other.now ≡ false }
    requires wide { type_local_count frame ≡ type_local_count other.now }
    ensures met { IfOk result (λ r. r.0 ≡ type_meeting.meet frame other.now) }
    ensures told { IfOk result
        (λ r. r.1 ≡ not (type_meeting.same frame (type_meeting.meet frame other.now))) }
{
    let local_count = frame.local_count();
    let (mut stack, mut locals, was_ready) = frame.into_parts(alloc)?;
    let stack_changed = meet_stacks(&mut stack, other.stack());
    let locals_changed = meet_locals(&mut locals, other);
    let ready = was_ready & other.is_ready();
    let met = TypeFrame::new(alloc, stack, locals, local_count, ready)?;
    Ok((met, stack_changed | locals_changed | (was_ready & !ready)))
}
