//! The frame after an instruction.

ghost use Rattle.std.specs.Prelude.{◌≡◌, ◌∷◌, ◌++◌, [], true, map, drop, IfOk, OnOk};
ghost use Rattle.jvm_types.specs.CodeTable.{value_of, stack_after, locals_after};
ghost use Rattle.checked_program.specs.LockTags.{entry_tags, without};
ghost use Rattle.checked_program.specs.Tagging.{moved_tags, tags_after, tags_at_handler};
ghost use Rattle.checked_program.specs.declared.tag.Tag.TheVariants.{Untagged, At};
ghost use Rattle.monitor_tags.specs.Held.{entered_tags};

use crate::tag_stacks::untag;
use checked_program::{Tag, TagFrame, TagLocals, same_tag};
use jvm_types::flags::is_static;
use jvm_types::{Given, Insn, MethodInfo, Op, OpRow, Rows, Stack, StackMove};
use std::alloc::{AllocError, Global};

/// The tag of a value that is pushed, or written to a local; what an instruction makes is untagged.
fn tag_given(given: Given, f: &TagFrame) -> Tag
    ensures { result ≡ value_of Untagged (λ type. Untagged) f.now.stack f.now.locals given }
{
    match given {
        Given::Fresh(_) => Tag::Untagged,
        Given::Taken(place) => f
            .stack()
            .get(usize::from(place))
            .copied()
            .unwrap_or(Tag::Untagged),
        Given::Local(i) => f.locals().get(usize::from(i)).unwrap_or(Tag::Untagged),
    }
}

/// Pushes what an instruction leaves, the last first.
fn push_all(stack: &mut Stack<Tag>, gives: &[Given], f: &TagFrame) -> Result<(), AllocError>
    ensures { OnOk result (stack.new ≡ map
        (λ given. value_of Untagged (λ type. Untagged) f.now.stack f.now.locals given)
        gives.now ++ stack.old) }
{
    for i in (0..gives.len()).rev() {
        stack.push(tag_given(gives[i], f))?;
    }
    Ok(())
}

fn stack_after(alloc: Global, row: &OpRow, f: &TagFrame) -> Result<Stack<Tag>, AllocError>
    ensures { IfOk result (λ stack.
        stack ≡ stack_after Untagged (λ type. Untagged) row.now f.now.stack f.now.locals) }
{
    let mut stack = f
        .stack()
        .without_for(alloc, row.takes.len(), row.gives.len())?;
    push_all(&mut stack, row.gives.as_slice(), f)?;
    Ok(stack)
}

fn locals_after(
    alloc: Global,
    writes: Option<(u16, Given)>,
    f: &TagFrame,
) -> Result<TagLocals, AllocError>
    ensures { IfOk result (λ locals.
        locals ≡ locals_after Untagged (λ type. Untagged) writes f.now.stack f.now.locals) }
{
    let mut locals = f.locals().copy(alloc)?;
    if let Some((i, given)) = writes {
        locals.set(usize::from(i), tag_given(given, f))?;
    }
    Ok(locals)
}

/// Whether the locals keep their tags where an instruction writes so.
fn keeps_locals(writes: Option<(u16, Given)>, f: &TagFrame) -> bool
    ensures { result ≡ true
        → locals_after Untagged (λ type. Untagged) writes f.now.stack f.now.locals ≡ f.now.locals }
{
    match writes {
        Some((i, given)) => same_tag(tag_given(Given::Local(i), f), tag_given(given, f)),
        None => true,
    }
}

/// The frame that the row of an instruction leaves, with what is held then.
fn moved_with(
    alloc: Global,
    row: &OpRow,
    f: &TagFrame,
    held: Stack<Tag>,
) -> Result<TagFrame, AllocError>
    ensures { IfOk result (λ after. after ≡ record (moved_tags row.now f.now) { held = held }) }
{
    let stack = stack_after(alloc, row, f)?;
    let locals = locals_after(alloc, row.writes, f)?;
    TagFrame::new(alloc, stack, locals, held)
}

fn moved(alloc: Global, row: &OpRow, f: &TagFrame) -> Result<TagFrame, AllocError>
    ensures { IfOk result (λ after. after ≡ moved_tags row.now f.now) }
{
    if keeps_locals(row.writes, f) {
        let stack = stack_after(alloc, row, f)?;
        return f.with_stack(stack);
    }
    let held = f.held().copy(alloc)?;
    moved_with(alloc, row, f, held)
}

/// A `dup` at a pc of the untagged value on the top: its tag is taken from every place, and given
/// to both copies.
fn tagged_dup(alloc: Global, pc: u32, f: &TagFrame) -> Result<TagFrame, AllocError>
    ensures { IfOk result (λ after.
        after
        ≡ record {
          stack = At pc ∷ At pc ∷ without pc (drop 1 f.now.stack);
          locals = without pc f.now.locals;
          held = f.now.held;
        }) }
{
    let mut stack = f.stack().without_for(alloc, 1, 2)?;
    untag(&mut stack, pc);
    stack.push(Tag::At(pc))?;
    stack.push(Tag::At(pc))?;
    let mut locals = f.locals().copy(alloc)?;
    locals.untag(pc);
    TagFrame::new(alloc, stack, locals, f.held().copy(alloc)?)
}

/// What is held behind a `monitorenter`.
fn held_within(alloc: Global, f: &TagFrame) -> Result<Stack<Tag>, AllocError>
    ensures { IfOk result (λ held. held ≡ entered_tags f.now.stack f.now.held) }
{
    let mut held = f.held().without_for(alloc, 0, 1)?;
    if let Some(t) = f.stack().get(0) {
        held.push(*t)?;
    }
    Ok(held)
}

/// The frame after an instruction that has this row and finds this frame.
pub fn frame_after(
    alloc: Global,
    insn: &Insn,
    row: &OpRow,
    f: &TagFrame,
) -> Result<TagFrame, AllocError>
    ensures { IfOk result (λ after. after ≡ tags_after insn.now row.now f.now) }
{
    match insn.op {
        Op::Stack(StackMove::Dup) => match f.stack().get(0) {
            Some(Tag::Untagged) => tagged_dup(alloc, insn.pc, f),
            _ => moved(alloc, row, f),
        },
        Op::Monitorenter => {
            let held = held_within(alloc, f)?;
            moved_with(alloc, row, f, held)
        }
        Op::Monitorexit => {
            let held = f.held().without(alloc, 1)?;
            moved_with(alloc, row, f, held)
        }
        _ => moved(alloc, row, f),
    }
}

/// The frame at a handler of an instruction that finds this frame.
pub fn frame_at_handler(alloc: Global, f: &TagFrame) -> Result<TagFrame, AllocError>
    ensures { IfOk result (λ g. g ≡ tags_at_handler f.now) }
{
    let mut stack = Stack::new(alloc);
    stack.push(Tag::Untagged)?;
    f.with_stack(stack)
}

pub fn copy(alloc: Global, f: &TagFrame) -> Result<TagFrame, AllocError>
    ensures { IfOk result (λ g. g ≡ f.now) }
{
    f.with_stack(f.stack().copy(alloc)?)
}

/// The frame at pc 0: `this` is in local 0 of an instance method.
pub fn frame_at_entry(alloc: Global, m: &MethodInfo) -> Result<TagFrame, AllocError>
    ensures { IfOk result (λ f. f ≡ entry_tags m.now) }
{
    let mut first = Rows::new(alloc);
    if !is_static(m.flags) {
        first.push(Tag::This)?;
    }
    let locals = TagLocals::new(first, usize::from(m.max_locals));
    TagFrame::new(alloc, Stack::new(alloc), locals, Stack::new(alloc))
}
