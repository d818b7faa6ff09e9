//! Stacks of tags.

ghost use Rattle.std.specs.Prelude.{◌≡◌, ◌<◌, ◌≤◌, true, not, if◌then◌else◌, length, take};
ghost use Rattle.std.specs.Prelude.{slice_get, Some, IfOk};
ghost use Rattle.checked_program.specs.LockTags.{same_tag, same_tags, meet_tags, without};
ghost use Rattle.checked_program.specs.declared.tag.Tag.TheVariants.{Untagged};

use checked_program::{Tag, meet_tag, same_tag, without_tag};
use jvm_types::Stack;
use std::alloc::{AllocError, Global};

fn tag_on(stack: &Stack<Tag>, place: usize) -> Tag
    requires { place < length stack.now }
    ensures { slice_get stack.now place ≡ Some result }
{
    match stack.get(place) {
        Some(t) => *t,
        None => unreachable!(),
    }
}

/// Whether two stacks have the same tags.
pub fn same_stacks(stack: &Stack<Tag>, other: &Stack<Tag>) -> bool
    ensures { result ≡ same_tags stack.now other.now }
{
    if stack.len() != other.len() {
        return false;
    }
    for place in 0..stack.len() {
        if !same_tag(tag_on(stack, place), tag_on(other, place)) {
            return false;
        }
    }
    true
}

/// Whether a tag stays as it is where it meets another.
pub fn tag_stays(t: Tag, other: Tag) -> bool
    ensures { result ≡ same_tag t (if same_tag t other then t else Untagged) }
{
    same_tag(t, meet_tag(t, other))
}

/// Whether a stack stays as it is where it meets another.
pub fn stack_stays(stack: &Stack<Tag>, other: &Stack<Tag>) -> bool
    ensures { result ≡ true → same_tags stack.now (meet_tags stack.now other.now) ≡ true }
{
    if other.len() < stack.len() {
        return false;
    }
    for place in 0..stack.len() {
        if !tag_stays(tag_on(stack, place), tag_on(other, place)) {
            return false;
        }
    }
    true
}

/// The tag of the `dup` at a pc is taken from every place.
pub fn untag(stack: &mut Stack<Tag>, pc: u32)
    ensures { stack.new ≡ without pc stack.old }
{
    for place in 0..stack.len() {
        let t = tag_on(stack, place);
        stack.set(place, without_tag(t, pc));
    }
}

/// So many places from the top on.
fn top_of(alloc: Global, stack: &Stack<Tag>, count: usize) -> Result<Stack<Tag>, AllocError>
    requires { count ≤ length stack.now }
    ensures { IfOk result (λ s. s ≡ take count stack.now) }
{
    let mut top = Stack::new(alloc);
    for place in (0..count).rev() {
        top.push(tag_on(stack, place))?;
    }
    Ok(top)
}

/// A stack without the lowest of its places, where there are more than so many.
fn cut(alloc: Global, stack: Stack<Tag>, count: usize) -> Result<Stack<Tag>, AllocError>
    ensures { IfOk result (λ s. s ≡ take count stack) }
{
    if stack.len() <= count {
        Ok(stack)
    } else {
        top_of(alloc, &stack, count)
    }
}

/// Each place becomes what it and its place in another stack have in common; answers whether that
/// changed one.
fn meet_places(stack: &mut Stack<Tag>, other: &Stack<Tag>) -> bool
    requires { length stack.old ≤ length other.now }
    ensures met { stack.new ≡ meet_tags stack.old other.now }
    ensures told { result ≡ not (same_tags stack.old stack.new) }
{
    let mut changed = false;
    for place in 0..stack.len() {
        let t = tag_on(stack, place);
        let met = meet_tag(t, tag_on(other, place));
        changed |= !same_tag(t, met);
        stack.set(place, met);
    }
    changed
}

/// The stack where two meet, which is as high as the lower one; and whether it is another than the
/// first.
pub fn meet_stacks(
    alloc: Global,
    stack: Stack<Tag>,
    other: &Stack<Tag>,
) -> Result<(Stack<Tag>, bool), AllocError>
    ensures met { IfOk result (λ r. r.0 ≡ meet_tags stack other.now) }
    ensures told { IfOk result (λ r. r.1 ≡ not (same_tags stack (meet_tags stack other.now))) }
{
    let count = stack.len().min(other.len());
    let fewer = count < stack.len();
    let mut met = cut(alloc, stack, count)?;
    let changed = meet_places(&mut met, other);
    Ok((met, fewer | changed))
}
