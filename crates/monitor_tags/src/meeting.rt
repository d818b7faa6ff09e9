//! Frames where edges meet.

ghost use Rattle.std.specs.Prelude.{◌≡◌, ◌<◌, true, not, length, slice_get, Some, IfOk};
ghost use Rattle.checked_program.specs.LockTags.{same_tags, meet_tags};
ghost use Rattle.checked_program.specs.Tagging.{tag_meeting};

use crate::tag_stacks::{meet_stacks, same_stacks, stack_stays, tag_stays};
use checked_program::{Tag, TagFrame, TagLocals};
use std::alloc::{AllocError, Global};

/// Locals are compared one by one before they meet where there are no more than so many.
const MOST_COMPARED: usize = 64;

/// Whether two frames may not meet: they have different monitors.
pub fn clashes(frame: &TagFrame, other: &TagFrame) -> bool
    ensures { result ≡ tag_meeting.clashes frame.now other.now }
{
    !same_stacks(frame.held(), other.held())
}

fn tag_of_local(locals: &TagLocals, i: usize) -> Tag
    requires { i < length locals.now }
    ensures { slice_get locals.now i ≡ Some result }
{
    match locals.get(i) {
        Some(t) => t,
        None => unreachable!(),
    }
}

/// Whether some locals stay as they are where they meet others. Of many it may say that they don't.
fn locals_stay(locals: &TagLocals, other: &TagLocals) -> bool
    ensures { result ≡ true → same_tags locals.now (meet_tags locals.now other.now) ≡ true }
{
    if MOST_COMPARED < locals.len() {
        return false;
    }
    if other.len() < locals.len() {
        return false;
    }
    for i in 0..locals.len() {
        if !tag_stays(tag_of_local(locals, i), tag_of_local(other, i)) {
            return false;
        }
    }
    true
}

/// Whether a frame stays as it is where it meets another. Where there are many locals it may say
/// that it doesn't.
pub fn stays(frame: &TagFrame, other: &TagFrame) -> bool
    ensures { result ≡ true → tag_meeting.meet frame.now other.now ≡ frame.now }
{
    stack_stays(frame.stack(), other.stack()) && locals_stay(frame.locals(), other.locals())
}

/// The frame where two meet, which takes the place of the first; and whether that changed it.
pub fn meet_frames(
    alloc: Global,
    frame: TagFrame,
    other: &TagFrame,
) -> Result<(TagFrame, bool), AllocError>
    ensures met { IfOk result (λ r. r.0 ≡ tag_meeting.meet frame other.now) }
    ensures told { IfOk result
        (λ r. r.1 ≡ not (tag_meeting.same frame (tag_meeting.meet frame other.now))) }
{
    let (stack, mut locals, held) = frame.into_parts(alloc)?;
    let (met, stack_changed) = meet_stacks(alloc, stack, other.stack())?;
    let other_locals = other.locals();
    let locals_changed = locals.meet(other_locals);
    Ok((
        TagFrame::new(alloc, met, locals, held)?,
        stack_changed | locals_changed,
    ))
}
