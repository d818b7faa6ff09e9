//! The tags of locals.

ghost use Rattle.std.specs.Prelude.{◌≡◌, ◌<◌, ◌≤◌, not, length, slice_get, slice_set, Some, OnOk};
ghost use Rattle.std.specs.Prelude.{IfOk};
ghost use Rattle.checked_program.specs.LockTags.{filled_tags, same_tags, meet_tags, without};

use crate::tag::Tag;
use crate::tag_order::{meet_tag, same_tag, without_tag};
use jvm_types::Rows;
use std::alloc::{AllocError, Global};
use std::marker::Model;

/// The tags of the locals of a method, which contracts see as the list of them.
///
/// Only the first are kept, up to the last that may have one: `this`, and the locals that
/// instructions write, which are below 256 (JVMS 6.5: an index has one byte without `wide`).
#[derive(Debug, Drop)]
pub struct TagLocals {
    first: Rows<Tag>,
    count: usize,
}

impl Model for TagLocals {
    ghost use Rattle.std.specs.Prelude.{List};
    ghost use Rattle.checked_program.specs.LockTags.{filled_tags};
    ghost use Rattle.checked_program.specs.declared.tag.Tag.{Tag};

    ghost Value = { List Tag };

    ghost view = { λ l. filled_tags l.count l.first };
}

fn tag_at(tags: &Rows<Tag>, i: usize) -> Tag
    requires { i < length tags.now }
    ensures { slice_get tags.now i ≡ Some result }
{
    match tags.get(i) {
        Some(t) => *t,
        None => unreachable!(),
    }
}

fn tag_of_local(locals: &TagLocals, i: usize) -> Tag
    requires { i < length locals.now }
    ensures { slice_get locals.now i ≡ Some result }
{
    match locals.get(i) {
        Some(t) => t,
        None => unreachable!(),
    }
}

/// The places that are added up to this count are untagged.
fn fill(tags: &mut Rows<Tag>, count: usize) -> Result<(), AllocError>
    ensures { OnOk result (tags.new ≡ filled_tags count tags.old) }
{
    for _place in tags.len()..count {
        tags.push(Tag::Untagged)?;
    }
    Ok(())
}

/// Each tag becomes what it and that of the local at its place have in common; answers whether that
/// changed one.
fn meet_first(tags: &mut Rows<Tag>, other: &TagLocals) -> bool
    requires { length tags.old ≤ length other.now }
    ensures met { tags.new ≡ meet_tags tags.old other.now }
    ensures told { result ≡ not (same_tags tags.old tags.new) }
{
    let mut changed = false;
    for i in 0..tags.len() {
        let t = tag_at(tags, i);
        let met = meet_tag(t, tag_of_local(other, i));
        changed |= !same_tag(t, met);
        tags.set(i, met);
    }
    changed
}

fn untag_first(tags: &mut Rows<Tag>, pc: u32)
    ensures { tags.new ≡ without pc tags.old }
{
    for i in 0..tags.len() {
        let t = tag_at(tags, i);
        tags.set(i, without_tag(t, pc));
    }
}

impl TagLocals {
    /// So many locals, or as many as are given where these are more. Those that are not given are
    /// untagged.
    pub fn new(first: Rows<Tag>, count: usize) -> Self
        ensures { result ≡ filled_tags count first }
    {
        TagLocals { first, count }
    }

    /// How many locals there are.
    #[tactic(auto, using(crate::proofs::FilledTags::length_filled))]
    pub fn len(&self) -> usize
        ensures { result ≡ length self.now }
    {
        self.count.max(self.first.len())
    }

    /// How many of them are kept in memory, to count the bytes that tags take. It has no clause:
    /// the value that contracts see doesn't tell how many these are.
    pub fn kept(&self) -> usize {
        self.first.len()
    }

    /// The tag of a local, or `None` where there are not so many.
    pub fn get(&self, i: usize) -> Option<Tag>
        ensures { result ≡ slice_get self.now i }
    {
        match self.first.get(i) {
            Some(t) => Some(*t),
            None if i < self.count => Some(Tag::Untagged),
            None => None,
        }
    }

    pub fn copy(&self, alloc: Global) -> Result<Self, AllocError>
        ensures { IfOk result (λ l. l ≡ self.now) }
    {
        Ok(TagLocals {
            first: Rows::from_slice(alloc, self.first.as_slice())?,
            count: self.count,
        })
    }

    /// Gives a local another tag, where there is such a local.
    pub fn set(&mut self, i: usize, tag: Tag) -> Result<(), AllocError>
        ensures { OnOk result (self.new ≡ slice_set self.old i tag) }
    {
        if i < self.len() {
            fill(&mut self.first, i + 1)?;
            self.first.set(i, tag);
        }
        Ok(())
    }

    /// The tag of the `dup` at a pc is taken from every local.
    pub fn untag(&mut self, pc: u32)
        ensures { self.new ≡ without pc self.old }
    {
        untag_first(&mut self.first, pc);
    }

    /// Each local keeps a tag that the other locals have too, and there are no more than these;
    /// answers whether that changed them.
    pub fn meet(&mut self, other: &TagLocals) -> bool
        ensures met { self.new ≡ meet_tags self.old other.now }
        ensures told { result ≡ not (same_tags self.old self.new) }
    {
        let count = self.len().min(other.len());
        let fewer = count < self.len();
        self.first.truncate(count);
        self.count = count;
        let changed = meet_first(&mut self.first, other);
        fewer | changed
    }
}
