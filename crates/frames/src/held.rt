//! The list of held monitors.

ghost use Rattle.std.specs.Prelude.{◌≡◌, ◌≤◌, ◌<◌, ◌*◌, ◌+◌, [], length, slice_get, slice_set};
ghost use Rattle.std.specs.Prelude.{◌^◌, Some, None, IfSome, IfOk, OnErr};
ghost use Rattle.std.specs.List.{remove};
ghost use Rattle.std.specs.Vec.{vec_capacity};
ghost use Rattle.machine_types.specs.HeldMonitors.{held_at, with_held, without_held, held_in_frame};
ghost use Rattle.machine_types.specs.HeldMonitors.{most_in, most_held};
ghost use Rattle.machine_types.specs.declared.lock.Held.{Held};
ghost use Rattle.frames.specs.HeldLists.{AreOfOtherMonitors};

use checked_program::{TagFrame, Tags};
use jvm_types::Rows;
use jvm_types::limits::MOST_FRAMES;
use machine_types::Held;
use std::alloc::{AllocError, Global};
use std::marker::Model;

/// The monitors that a thread holds, with one entry for each, and how many there is room for.
#[derive(Drop)]
pub struct HeldList {
    entries: Vec<Held>,
}

impl Model for HeldList {
    ghost use Rattle.std.specs.Vec.{vec_capacity};
    ghost use Rattle.frames.specs.HeldLists.{AreOfOtherMonitors, HeldParts};

    ghost Value = { HeldParts };

    ghost view = { λ s. record { entries = s.entries.items; places = vec_capacity s.entries } };

    ghost invariant = { λ s. AreOfOtherMonitors s.entries.items };
}

/// The place of the entry of a monitor, or `None` where it has none, from the newest entry on.
#[inline(never)]
fn place_among(held: &[Held], monitor: u32) -> Option<usize>
    requires { AreOfOtherMonitors held.now }
    ensures none { result ≡ None → held_at held.now monitor ≡ None }
    ensures stays { result ≡ None → without_held monitor held.now ≡ held.now }
    ensures some { IfSome result (λ i.
        (i < length held.now) × (held_at held.now monitor ≡ slice_get held.now i)
        × (without_held monitor held.now ≡ remove held.now i) × ((e : Held)
        → e.monitor ≡ monitor → with_held e held.now ≡ slice_set held.now i e)) }
{
    for i in (0..held.len()).rev() {
        if held[i].monitor == monitor {
            return Some(i);
        }
    }
    None
}

/// The place of the entry of a monitor, or `None` where it has none. The newest entry is looked at
/// first, since it is left first.
#[inline(always)]
fn place_of(held: &[Held], monitor: u32) -> Option<usize>
    requires { AreOfOtherMonitors held.now }
    ensures none { result ≡ None → held_at held.now monitor ≡ None }
    ensures stays { result ≡ None → without_held monitor held.now ≡ held.now }
    ensures some { IfSome result (λ i.
        (i < length held.now) × (held_at held.now monitor ≡ slice_get held.now i)
        × (without_held monitor held.now ≡ remove held.now i) × ((e : Held)
        → e.monitor ≡ monitor → with_held e held.now ≡ slice_set held.now i e)) }
{
    let count = held.len();
    if count == 0 {
        return None;
    }
    if held[count - 1].monitor == monitor {
        return Some(count - 1);
    }
    place_among(held, monitor)
}

/// Drops the entry at a place, which mostly is the newest one.
#[inline(always)]
fn drop_at(entries: &mut Vec<Held>, i: usize)
    requires { i < length entries.old.items }
    ensures items { entries.new.items ≡ remove entries.old.items i }
    ensures places { vec_capacity entries.old ≤ vec_capacity entries.new }
{
    if i + 1 == entries.len() {
        let _newest = entries.pop();
    } else {
        let _gone = entries.remove(i);
    }
}

impl HeldList {
    /// None is held, and there is room for so many.
    pub fn with_places(alloc: Global, places: usize) -> Result<HeldList, AllocError>
        ensures { IfOk result (λ held. (held.entries ≡ []) × (places ≤ held.places)) }
    {
        Ok(HeldList {
            entries: Vec::with_capacity(alloc, places)?,
        })
    }

    /// The entry of a monitor.
    #[inline(always)]
    pub fn at(&self, monitor: u32) -> Option<Held>
        ensures { result ≡ held_at self.now.entries monitor }
    {
        match place_of(self.entries.as_slice(), monitor) {
            Some(i) => Some(self.entries[i]),
            None => None,
        }
    }

    /// The entry of the monitor becomes this one, or this one is added.
    pub fn put(&mut self, held: Held)
        requires { held_at self.old.entries held.monitor ≡ None
            → length self.old.entries < self.old.places }
        ensures entries { self.new.entries ≡ with_held held self.old.entries }
        ensures places { self.old.places ≤ self.new.places }
    {
        match place_of(self.entries.as_slice(), held.monitor) {
            Some(i) => self.entries[i] = held,
            None => self.entries.push_reserved(held),
        }
    }

    /// The entry of a monitor that has none is added.
    #[inline(always)]
    pub fn add(&mut self, held: Held)
        requires none { held_at self.old.entries held.monitor ≡ None }
        requires room { length self.old.entries < self.old.places }
        ensures entries { self.new.entries ≡ with_held held self.old.entries }
        ensures places { self.old.places ≤ self.new.places }
    {
        self.entries.push_reserved(held);
    }

    /// Drops the entry of a monitor, where it has one.
    #[inline(always)]
    pub fn remove(&mut self, monitor: u32)
        ensures entries { self.new.entries ≡ without_held monitor self.old.entries }
        ensures places { self.old.places ≤ self.new.places }
    {
        if let Some(i) = place_of(self.entries.as_slice(), monitor) {
            drop_at(&mut self.entries, i);
        }
    }
}

fn held_in_frame(frame: &Option<TagFrame>) -> usize
    ensures { result ≡ held_in_frame frame.now }
{
    match frame {
        Some(f) => f.held().len(),
        None => 0,
    }
}

fn most_in(frames: &Rows<Option<TagFrame>>) -> usize
    ensures { result ≡ most_in frames.now }
{
    let mut most = 0;
    for i in 0..frames.len() {
        most = held_in_frame(&frames.as_slice()[i]).max(most);
    }
    most
}

/// The most monitors that one frame of a program holds, beside that of its method.
pub fn most_held(tags: &Rows<Tags>) -> usize
    ensures { result ≡ most_held tags.now }
{
    let mut most = 0;
    for i in 0..tags.len() {
        most = most_in(&tags.as_slice()[i].frames).max(most);
    }
    most
}

/// The most entries of the list. A list that is longer than memory is want of memory, and no other
/// is.
pub fn places(tags: &Rows<Tags>) -> Result<usize, AllocError>
    ensures places { IfOk result (λ n. n ≡ MOST_FRAMES * (1 + most_held tags.now)) }
    ensures full { OnErr result (2 ^ 64 ≤ MOST_FRAMES * (1 + most_held tags.now)) }
{
    let most = most_held(tags);
    match most.checked_add(1) {
        Some(n) => n.checked_mul(MOST_FRAMES).ok_or(AllocError),
        None => Err(AllocError),
    }
}
