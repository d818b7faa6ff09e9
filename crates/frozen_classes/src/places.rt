//! Places that have `this`, before an instruction and after it.

ghost use Rattle.std.specs.Prelude.{◌≡◌, ◌<◌, ◌+◌, length, slice_get, slice_index_or};
ghost use Rattle.std.specs.Prelude.{IfOk, OnOk};
ghost use Rattle.std.specs.List.{list_all};
ghost use Rattle.checked_program.specs.LockTags.{is_this};
ghost use Rattle.checked_program.specs.declared.tag.Tag.TheVariants.{Untagged as untagged};
ghost use Rattle.frozen_classes.specs.KeptThis.{given_this, keeps_places, local_this_after};
ghost use Rattle.frozen_classes.specs.KeptThis.{numbers_where, places_after, places_caught};
ghost use Rattle.frozen_classes.specs.KeptThis.{stack_this_after, this_at, with_number};

use checked_program::{Tag, TagFrame};
use code_visits::Budget;
use jvm_types::{Given, OpRow, Rows, Want};
use std::alloc::{AllocError, Global};

/// Some places: of the stack, counted from the top, and locals.
#[derive(Debug, Drop)]
pub(crate) struct Places {
    stack: Rows<usize>,
    locals: Rows<usize>,
}

fn is_this(tag: Tag) -> bool
    ensures { result ≡ is_this tag }
{
    matches!(tag, Tag::This)
}

fn stack_tag(f: &TagFrame, place: usize) -> Tag
    ensures { result ≡ slice_index_or f.now.stack place untagged }
{
    if place >= f.stack().len() {
        return Tag::Untagged;
    }
    match f.stack().get(place) {
        Some(t) => *t,
        None => unreachable!(),
    }
}

fn local_tag(f: &TagFrame, i: usize) -> Tag
    ensures { result ≡ slice_index_or f.now.locals i untagged }
{
    if i >= f.locals().len() {
        return Tag::Untagged;
    }
    match f.locals().get(i) {
        Some(t) => t,
        None => unreachable!(),
    }
}

/// Whether a place of the stack has `this`, counted from the top.
pub(crate) fn stack_this(f: &TagFrame, place: usize) -> bool
    ensures { result ≡ this_at f.now.stack place }
{
    is_this(stack_tag(f, place))
}

/// Whether a local has `this`.
pub(crate) fn local_this(f: &TagFrame, i: usize) -> bool
    ensures { result ≡ this_at f.now.locals i }
{
    is_this(local_tag(f, i))
}

fn given_this(f: &TagFrame, given: Given) -> bool
    ensures { result ≡ given_this f.now given }
{
    match given {
        Given::Taken(place) => stack_this(f, place as usize),
        Given::Local(i) => local_this(f, i as usize),
        Given::Fresh(_) => false,
    }
}

fn sum_of_lens(gives: &[Given], stack: &[Tag]) -> usize
    ensures { result ≡ length gives.now + length stack.now }
{
    gives.len() + stack.len()
}

/// How many places the stack has at most after an instruction with this row.
#[tactic(auto, using(crate::proofs::StackLengths::length_reversed))]
fn places_above(row: &OpRow, f: &TagFrame) -> usize
    ensures { result ≡ length row.now.gives + length f.now.stack }
{
    sum_of_lens(row.gives.as_slice(), f.stack().as_slice())
}

fn below_taken(takes: &[Want], stack: &[Tag], place: usize) -> usize
    requires { place < length stack.now }
    ensures { result ≡ length takes.now + place }
{
    takes.len() + place
}

fn left_this(row: &OpRow, f: &TagFrame, place: usize) -> bool
    requires { place < length f.now.stack }
    ensures { result ≡ this_at f.now.stack (length row.now.takes + place) }
{
    stack_this(
        f,
        below_taken(row.takes.as_slice(), f.stack().as_slice(), place),
    )
}

/// Whether a place of the stack has `this` after an instruction with this row.
fn stack_this_after(row: &OpRow, f: &TagFrame, k: usize) -> bool
    requires { k < length row.now.gives + length f.now.stack }
    ensures { result ≡ stack_this_after row.now f.now k }
{
    let gives = row.gives.len();
    if k < gives {
        match row.gives.get(k) {
            Some(given) => given_this(f, *given),
            None => unreachable!(),
        }
    } else {
        left_this(row, f, k - gives)
    }
}

fn local_this_after(writes: Option<(u16, Given)>, f: &TagFrame, k: usize) -> bool
    ensures { result ≡ local_this_after writes f.now k }
{
    match writes {
        Some((i, given)) => {
            if k == i as usize && k < f.locals().len() {
                given_this(f, given)
            } else {
                local_this(f, k)
            }
        }
        None => local_this(f, k),
    }
}

/// A number is put behind some where it passes a test.
fn add_number(numbers: &mut Rows<usize>, k: usize, passes: bool) -> Result<(), AllocError>
    ensures { OnOk result (numbers.new ≡ with_number numbers.old k passes) }
{
    if passes {
        numbers.push(k)?;
    }
    Ok(())
}

fn stack_after(alloc: Global, row: &OpRow, f: &TagFrame) -> Result<Rows<usize>, AllocError>
    ensures { IfOk result (λ places. places ≡ (places_after row.now f.now).stack) }
{
    let mut places = Rows::new(alloc);
    for k in 0..places_above(row, f) {
        add_number(&mut places, k, stack_this_after(row, f, k))?;
    }
    Ok(places)
}

fn locals_after(
    alloc: Global,
    writes: Option<(u16, Given)>,
    f: &TagFrame,
) -> Result<Rows<usize>, AllocError>
    ensures { IfOk result (λ places.
        places ≡ numbers_where (local_this_after writes f.now) (length f.now.locals)) }
{
    let mut places = Rows::new(alloc);
    for k in 0..f.locals().len() {
        add_number(&mut places, k, local_this_after(writes, f, k))?;
    }
    Ok(places)
}

fn locals_of(alloc: Global, f: &TagFrame) -> Result<Rows<usize>, AllocError>
    ensures { IfOk result (λ places. places ≡ (places_caught f.now).locals) }
{
    let mut places = Rows::new(alloc);
    for k in 0..f.locals().len() {
        add_number(&mut places, k, local_this(f, k))?;
    }
    Ok(places)
}

/// The places that have `this` after an instruction with this row.
pub(crate) fn places_after(
    alloc: Global,
    budget: &mut Budget,
    row: &OpRow,
    f: &TagFrame,
) -> Result<Places, AllocError>
    ensures { IfOk result (λ places. places ≡ places_after row.now f.now) }
{
    budget.spend(f.locals().len().saturating_add(places_above(row, f)))?;
    Ok(Places {
        stack: stack_after(alloc, row, f)?,
        locals: locals_after(alloc, row.writes, f)?,
    })
}

/// The places that have `this` where an exception is caught.
pub(crate) fn places_caught(
    alloc: Global,
    budget: &mut Budget,
    f: &TagFrame,
) -> Result<Places, AllocError>
    ensures { IfOk result (λ places. places ≡ places_caught f.now) }
{
    budget.spend(f.locals().len())?;
    Ok(Places {
        stack: Rows::new(alloc),
        locals: locals_of(alloc, f)?,
    })
}

fn keeps_stack(places: &[usize], g: &TagFrame) -> bool
    ensures { result ≡ list_all (λ k. this_at g.now.stack k) places.now }
{
    for k in places {
        if !stack_this(g, *k) {
            return false;
        }
    }
    true
}

fn keeps_locals(places: &[usize], g: &TagFrame) -> bool
    ensures { result ≡ list_all (λ k. this_at g.now.locals k) places.now }
{
    for k in places {
        if !local_this(g, *k) {
            return false;
        }
    }
    true
}

impl Places {
    /// How many there are.
    pub(crate) fn count(&self) -> usize {
        self.stack.len().saturating_add(self.locals.len())
    }

    /// Whether they have `this` before an instruction too.
    pub(crate) fn keep(&self, g: &TagFrame) -> bool
        ensures { result ≡ keeps_places self.now g.now }
    {
        keeps_stack(self.stack.as_slice(), g) && keeps_locals(self.locals.as_slice(), g)
    }
}
